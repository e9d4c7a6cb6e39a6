// What holds of the reads of a source in memory.
ghost use Rattle.std.specs.Prelude.{◌≡◌, ◌≤◌, List, [], Some, length};
ghost use Rattle.std.specs.List.{All};
ghost use Rattle.nv_script.specs.Doings.{Doing};
ghost use Rattle.nv_live.specs.Live.{DidInTurn, StoodIn};
ghost use Rattle.nv_live.specs.MemorySource.{given_of, faults_of, moments_of};
ghost use Rattle.nv_live.specs.declared.live.Live.{Live};
ghost use Rattle.nv_live.specs.declared.memory_source.MemorySource.{MemorySource};

use nv_outside::Sink;

/// Each time that a plain run reads a source in memory things stand as in the midst of what is done, and a read that gives something is one of
/// these times.
pub fn reads_in_turn<O: Sink, T: Sink>()
    ensures stood { (first later : Live (MemorySource O T) O T) (done : List Doing) → moments_of O.told O.faults T.told T.faults first.incoming.source ≡ []
        → DidInTurn (λ s. Some (given_of s)) faults_of (λ s. Some (moments_of O.told O.faults T.told T.faults s)) O.told O.faults T.told T.faults first later done
        → All (StoodIn (λ s. Some (given_of s)) faults_of O.told O.faults T.told T.faults first done) (moments_of O.told O.faults T.told T.faults later.incoming.source) }
    ensures counted { (source : MemorySource O T) → length (given_of source) ≤ length (moments_of O.told O.faults T.told T.faults source) }
{}
