// What holds of each state of a room.
ghost use Rattle.std.specs.Prelude.{◌≡◌, ◌≢◌, ◌⊎◌, Some, slice_index_or, ℕ, ◌+◌, ◌*◌, ◌<◌, ◌≤◌, List, [], ◌∷◌, ◌++◌, map, Option, length};
ghost use Rattle.std.specs.Option.{ForSome};
ghost use mathlib.Core.Option.{some};
ghost use lib.ListN.{get_elem?};
ghost use Rattle.atomic_table.specs.Table.{Me, State};
ghost use Rattle.nv_calls.specs.Limits.{MOST_EVENTS};
ghost use Rattle.nv_calls.specs.Logs.{IsLawful, live_after};
ghost use Rattle.nv_words.specs.Begins.{Prefix};
ghost use Rattle.nv_words.specs.Spelling.{IsWhole, low, spell};
ghost use Rattle.nv_room.specs.Header.{head_index, owner_index};
ghost use Rattle.nv_room.specs.Logs.{lane, lanes_after};
ghost use Rattle.nv_room.specs.Stamps.{Lives};
ghost use Rattle.nv_room.specs.declared.view.View.{View};
ghost use Rattle.nv_room.specs.declared.view.Layout.{Layout};
ghost use Rattle.nv_room.specs.declared.view.Role.TheVariants.{Lead, Leaving, Moving, Opening, Reader};
ghost use Rattle.nv_room.specs.Owner.{Phase, closed, free, held, owner_word};
ghost use Rattle.nv_room.specs.Placement.{Fits, Log, next_slot, word_place};
ghost use Rattle.nv_room.specs.Planned.{asked_then};
ghost use Rattle.nv_room.specs.Room.{Became, MayHand, Leads, Rule, cursor};
ghost use Rattle.nv_room.specs.Spans.{LastHasEvent};
ghost use Rattle.nv_room.specs.Steps.{SpellLawful};
ghost use Rattle.nv_ring.specs.Places.{FitsAll, IsFull};
ghost use Rattle.nv_laws.specs.GetsOn.{moment, AllSeated, CanGetOn, HasEvent, IsLowest, SomeGetsOn, SomeSeat, SomeStays};
ghost use Rattle.nv_room.specs.Kinds.{Kind, looks_head, looks_owner, looks_cursor, looks_spare, probes, reads, writes, sees, publishes, takes, gives_up, leaves, opens, hands, moves, StepGives, Went};
ghost use Rattle.nv_laws.specs.Steps.{steps_left, steps_on};
ghost use Rattle.nv_laws.specs.Plays.{Does, MayDo};
ghost use Rattle.nv_laws.specs.Traces.{NeedNotWait};
ghost use Rattle.nv_laws.specs.Runs.{IsFair, IsRun, TakesTurns, Windows, all_left};

use nv_calls::SyscallKernel;

/// In each state of a room that meets its rule, each version's seat there and not all gone, some seat can get on.
pub fn no_room_is_stuck<K: SyscallKernel>()
    ensures { (p : Layout K) (s : State (Option K) (View K)) (r : Rule K.log (Became K.start K.handed) p s) → AllSeated p s.views → SomeStays s.views → SomeGetsOn p.places (moment r) s.views }
{}

/// Who keeps a lead from its place has an event to see, as the cursor tells at which the lead looked; while the room is held a seat leads it; and while it
/// is free the lowest station left can get on.
pub fn who_is_waited_for_can_get_on<K: SyscallKernel>()
    ensures place { (p : Layout K) (s : State (Option K) (View K)) (r : Rule K.log (Became K.start K.handed) p s) → AllSeated p s.views → r.phase ≡ held
        → (t : ℕ) → t ≢ r.holder → t < length r.seating → ¬ FitsAll p.places r.log (cursor s.words t)
        → SomeSeat s.views (λ v. (v.station ≡ t) × CanGetOn p.places (moment r) v v.role × HasEvent (moment r) v) }
    ensures looked { (c : ℕ) (log : Log) (seen : ℕ) → 0 < c → IsFull c log seen → seen < length log }
    ensures lead { (p : Layout K) (s : State (Option K) (View K)) (r : Rule K.log (Became K.start K.handed) p s) → r.phase ≡ held
        → SomeSeat s.views (λ v. (v.station ≡ r.holder) × Leads v.role) }
    ensures lower { (p : Layout K) (s : State (Option K) (View K)) (r : Rule K.log (Became K.start K.handed) p s) → AllSeated p s.views → r.phase ≡ free
        → (t : ℕ) → IsLowest (moment r) t
        → SomeSeat s.views (λ v. (get_elem? r.seating t ≡ some v.version) × CanGetOn p.places (moment r) v v.role) }
{}

/// However a seat goes on in a room of n stations, it takes at most so many steps that get on: one for each event, and four at each station and once more.
/// Each leaves one step fewer, and looks, probes and words leave as many as before.
pub fn no_seat_gets_on_for_ever<K: SyscallKernel>()
    ensures few { (n : ℕ) (v w : View K) (ks : List Kind) → Went n v ks w → steps_on ks ≤ MOST_EVENTS + 4 * n + 4 }
    ensures falls { (n : ℕ) (v w : View K) (ks : List Kind) → Went n v ks w → steps_on ks + steps_left n w ≤ steps_left n v }
{}

/// Each step of a room, of a seat as the room's rule has it, is a step of the law above; so no seat of a room gets on for ever.
pub fn each_step_is_counted<K: SyscallKernel>()
    ensures { (p : Layout K) (s next : State (Option K) (View K)) (id : ℕ) (kind : Kind) → Rule K.log (Became K.start K.handed) p s → (d : Does K.log (Became K.start K.handed) p s next id kind) → StepGives p.stations d.me.0 d.next.0 kind }
{}

/// A step of one seat takes from no other that it can get on, until that one takes a step itself.
pub fn who_can_get_on_still_can<K: SyscallKernel>()
    ensures { (p : Layout K) (s next : State (Option K) (View K)) (r : Rule K.log (Became K.start K.handed) p s) (after : Rule K.log (Became K.start K.handed) p next) (id : ℕ) (kind : Kind) → Does K.log (Became K.start K.handed) p s next id kind
        → (j : ℕ) (v : View K) → j ≢ id → get_elem? s.views j ≡ some v → CanGetOn p.places (moment r) v v.role → (get_elem? next.views j ≡ some v) × CanGetOn p.places (moment after) v v.role }
{}

/// A seat that could get on when its turn began doesn't find that it has to wait, whatever steps the others take in between, unless it gets on.
pub fn who_can_get_on_does_not_wait<K: SyscallKernel>()
    ensures { (p : Layout K) (s : State (Option K) (View K)) (r : Rule K.log (Became K.start K.handed) p s) (j : ℕ) (v : View K) → get_elem? s.views j ≡ some v → CanGetOn p.places (moment r) v v.role → NeedNotWait K.log (Became K.start K.handed) p s j v }
{}

/// In each state of a room some seat that has still to leave doesn't wait in its next turn, whatever steps the others take until then and in between.
pub fn some_turn_does_not_wait<K: SyscallKernel>()
    ensures { (p : Layout K) (s : State (Option K) (View K)) → Rule K.log (Became K.start K.handed) p s → AllSeated p s.views → SomeStays s.views
        → (j : ℕ) × (v : View K) × (get_elem? s.views j ≡ some v) × NeedNotWait K.log (Became K.start K.handed) p s j v }
{}

/// What the room's rule allows of each kind of step, where the seat meets what the room asks of it, is such a step.
pub fn the_room_allows_these_steps<K: SyscallKernel>()
    ensures head { (p : Layout K) (id : ℕ) (me : Me (Option K) (View K)) → MayDo K.log (Became K.start K.handed) p id me (λ ws. looks_head (slice_index_or ws head_index 0)) }
    ensures owner { (p : Layout K) (id : ℕ) (me : Me (Option K) (View K)) → me.0.role ≡ Reader → MayDo K.log (Became K.start K.handed) p id me (λ ws. looks_owner (slice_index_or ws owner_index 0)) }
    ensures cursor { (p : Layout K) (id : ℕ) (me : Me (Option K) (View K)) (t : ℕ) → t < p.stations → MayDo K.log (Became K.start K.handed) p id me (λ ws. looks_cursor t (cursor ws t)) }
    ensures spare { (p : Layout K) (id : ℕ) (me : Me (Option K) (View K)) → me.0.role ≡ Lead → MayHand p.stations p.hands.value.items me.0.opened (length me.0.seen) → LastHasEvent me.0.spans → MayDo K.log (Became K.start K.handed) p id me (λ ws. looks_spare (slice_index_or ws head_index 0)) }
    ensures probes { (p : Layout K) (id : ℕ) (me : Me (Option K) (View K)) (l : ℕ) → me.0.role ≡ Reader → l < 8 → Lives me.0.seen l → length me.0.seen < me.0.head_last
        → MayDo K.log (Became K.start K.handed) p id me (λ ws. probes l (slice_index_or ws (next_slot p.stations p.places (lanes_after me.0.seen) l 1) 0)) }
    ensures reads { (p : Layout K) (id : ℕ) (me : Me (Option K) (View K)) (i l : ℕ) → me.0.role ≡ Reader → ¬ IsWhole me.0.read → me.0.noted ≡ Some l
        → ((log : Log) → Prefix me.0.seen log → l ≡ lane log (length me.0.seen) → i ≡ word_place p.stations p.places log (length me.0.seen) (length me.0.read)) → MayDo K.log (Became K.start K.handed) p id me (λ ws. reads (slice_index_or ws i 0)) }
    ensures writes { (p : Layout K) (id : ℕ) (me : Me (Option K) (View K)) (x : ℕ) → me.0.role ≡ Lead → length me.0.wrote < 518 → (length me.0.wrote ≡ 1 → low x ≡ length me.0.seen)
        → ((t : ℕ) → t ≢ me.0.station → t < me.0.opened → Fits p.places me.0.seen (me.0.wrote ++ x ∷ []) (slice_index_or me.0.floors t 0)) → MayDo K.log (Became K.start K.handed) p id me (λ _. writes x) }
    ensures sees { (p : Layout K) (id : ℕ) (me : Me (Option K) (View K)) → me.0.role ≡ Reader → IsWhole me.0.read → MayDo K.log (Became K.start K.handed) p id me (λ _. sees) }
    ensures publishes { (p : Layout K) (id : ℕ) (me : Me (Option K) (View K)) → me.0.role ≡ Lead → IsWhole me.0.wrote → length me.0.seen < MOST_EVENTS → SpellLawful (me.0.seen ++ me.0.wrote ∷ []) → MayDo K.log (Became K.start K.handed) p id me (λ _. publishes) }
    ensures takes { (p : Layout K) (id : ℕ) (me : Me (Option K) (View K)) → me.0.role ≡ Reader → me.0.freed ≡ Some (length me.0.seen) → MayDo K.log (Became K.start K.handed) p id me (λ _. takes) }
    ensures gives_up { (p : Layout K) (id : ℕ) (me : Me (Option K) (View K)) (k : K) (ph : Phase) → me.0.role ≡ Lead → me.1 ≡ (0, Some k) ∷ [] → me.0.wrote ≡ [] → map spell (K.log k) ≡ me.0.seen → IsLawful (K.log k)
        → ForSome me.0.start (λ s. Became K.start K.handed s.value k me.0.asked) → ph ≢ held → (ph ≡ closed → live_after (K.log k) ≡ []) → MayDo K.log (Became K.start K.handed) p id me (λ _. gives_up (owner_word ph me.0.station me.0.opened (length me.0.seen))) }
    ensures leaves { (p : Layout K) (id : ℕ) (me : Me (Option K) (View K)) → (me.0.role ≡ Reader) ⊎ (me.0.role ≡ Leaving) → MayDo K.log (Became K.start K.handed) p id me (λ _. leaves) }
    ensures opens { (p : Layout K) (id : ℕ) (me : Me (Option K) (View K)) → me.0.role ≡ Lead → me.0.wrote ≡ [] → MayHand p.stations p.hands.value.items me.0.opened (length me.0.seen) → LastHasEvent me.0.spans → MayDo K.log (Became K.start K.handed) p id me (λ _. opens) }
    ensures hands { (p : Layout K) (id : ℕ) (me : Me (Option K) (View K)) (k : K) → me.0.role ≡ Opening → me.1 ≡ (0, Some k) ∷ [] → map spell (K.log k) ≡ me.0.seen → IsLawful (K.log k)
        → ForSome me.0.start (λ s. Became K.start K.handed s.value k (asked_then p.hands.value.items (length me.0.seen) me.0.asked)) → MayDo K.log (Became K.start K.handed) p id me (λ _. hands (owner_word free me.0.station (me.0.opened + 1) (length me.0.seen))) }
    ensures moves { (p : Layout K) (id : ℕ) (me : Me (Option K) (View K)) → me.0.role ≡ Moving → MayDo K.log (Became K.start K.handed) p id me (λ _. moves) }
{}

/// A run comes to a moment at which all seats have left, where no moment comes after which none of the seats that can get on has a turn; that is so where
/// each seat that hasn't left has turns again and again.
pub fn every_run_ends<K: SyscallKernel>()
    ensures fair { (p : Layout K) (state : ℕ → State (Option K) (View K)) (left : ℕ → ℕ → ℕ) → IsRun K.log (Became K.start K.handed) p state left → IsFair K.log (Became K.start K.handed) p state left → (i : ℕ) × (SomeStays (state i).views → ⊥) }
    ensures turns { (p : Layout K) (state : ℕ → State (Option K) (View K)) (left : ℕ → ℕ → ℕ) → IsRun K.log (Became K.start K.handed) p state left → TakesTurns K.log (Became K.start K.handed) p state left → (i : ℕ) × (SomeStays (state i).views → ⊥) }
{}

/// In each window in which all seats that haven't left have a turn, fewer steps and turns are left; so all have left after as many windows as were left of them at the start.
pub fn each_window_leaves_less<K: SyscallKernel>()
    ensures falls { (p : Layout K) (state : ℕ → State (Option K) (View K)) (left : ℕ → ℕ → ℕ) → IsRun K.log (Became K.start K.handed) p state left → (n a b : ℕ) → Windows K.log (Became K.start K.handed) p state left n a b → SomeStays (state b).views → n + all_left K.log (Became K.start K.handed) p state left b ≤ all_left K.log (Became K.start K.handed) p state left a }
    ensures few { (p : Layout K) (state : ℕ → State (Option K) (View K)) (left : ℕ → ℕ → ℕ) → IsRun K.log (Became K.start K.handed) p state left → (n b : ℕ) → Windows K.log (Became K.start K.handed) p state left n 0 b → SomeStays (state b).views → n < all_left K.log (Became K.start K.handed) p state left 0 }
    ensures most { (p : Layout K) (state : ℕ → State (Option K) (View K)) (left : ℕ → ℕ → ℕ) (most : ℕ) → ((j : ℕ) → left 0 j ≤ most) → all_left K.log (Became K.start K.handed) p state left 0 ≤ length (state 0).views * (MOST_EVENTS + 4 * p.stations + 4 + most) }
{}
