// What holds of every call on files.
ghost use Rattle.std.specs.Prelude.{◌⊎◌, ℕ, ℤ, Bool, List};
ghost use Rattle.nv_fs.specs.States.{FileState, Inode};
ghost use Rattle.nv_fs.specs.Starts.{first_state};
ghost use Rattle.nv_fs.specs.Closes.{close_of, dup_of, dup3_of};
ghost use Rattle.nv_fs.specs.Ends.{pipe_of};
ghost use Rattle.nv_fs.specs.Opened.{open_at_of, unlink_at_of};
ghost use Rattle.nv_fs.specs.Seeks.{seek_of};
ghost use Rattle.nv_fs.specs.Fetched.{read_of};
ghost use Rattle.nv_fs.specs.Stored.{write_of};
ghost use Rattle.nv_laws.specs.Tables.{AreSoundTables};
ghost use Rattle.nv_laws.specs.Calls.{ChangesNothing, HasOpened, HasDoubled, HasPiped, LetsGo, TakesAName, StaysWithin};

/// The first tables are sound, and each call leaves them so.
pub fn calls_keep_the_tables_sound()
    ensures first { (polls : Bool) (input : List ℕ) (files : List Inode) → AreSoundTables (first_state polls input files) }
    ensures open_at { (s : FileState) (dir : ℤ) (path : List ℕ) (flags : ℕ) → AreSoundTables s → AreSoundTables (open_at_of s dir path flags).state }
    ensures unlink_at { (s : FileState) (dir : ℤ) (path : List ℕ) (flags : ℕ) → AreSoundTables s → AreSoundTables (unlink_at_of s dir path flags).state }
    ensures close { (s : FileState) (fd : ℕ) → AreSoundTables s → AreSoundTables (close_of s fd).state }
    ensures dup { (s : FileState) (fd : ℕ) → AreSoundTables s → AreSoundTables (dup_of s fd).state }
    ensures dup3 { (s : FileState) (from to flags : ℕ) → AreSoundTables s → AreSoundTables (dup3_of s from to flags).state }
    ensures pipe { (s : FileState) (flags : ℕ) → AreSoundTables s → AreSoundTables (pipe_of s flags).state }
    ensures seek { (s : FileState) (fd high low whence : ℕ) → AreSoundTables s → AreSoundTables (seek_of s fd high low whence).state }
    ensures read { (s : FileState) (fd count : ℕ) → AreSoundTables s → AreSoundTables (read_of s fd count).state }
    ensures write { (s : FileState) (fd : ℕ) (bytes : List ℕ) → AreSoundTables s → AreSoundTables (write_of s fd bytes).state }
{}

/// A descriptor, an open file, a file or a pipe that is made takes no number in use, and all others stay.
pub fn what_is_made_was_free()
    ensures open_at { (s : FileState) (dir : ℤ) (path : List ℕ) (flags : ℕ) → AreSoundTables s → ChangesNothing s (open_at_of s dir path flags) ⊎ HasOpened s (open_at_of s dir path flags) }
    ensures dup { (s : FileState) (fd : ℕ) → ChangesNothing s (dup_of s fd) ⊎ HasDoubled s fd (dup_of s fd) }
    ensures pipe { (s : FileState) (flags : ℕ) → AreSoundTables s → ChangesNothing s (pipe_of s flags) ⊎ HasPiped s (pipe_of s flags) }
{}

/// A close, and `dup3` onto a descriptor, frees just what nothing else holds.
pub fn closes_free_what_nothing_else_holds()
    ensures close { (s : FileState) (fd : ℕ) → ChangesNothing s (close_of s fd) ⊎ LetsGo s (close_of s fd).state fd }
    ensures dup3 { (s : FileState) (from to flags : ℕ) → ChangesNothing s (dup3_of s from to flags) ⊎ LetsGo s (dup3_of s from to flags).state to }
{}

/// A call on a descriptor changes nothing of another open file, file or pipe; and unlinking takes a name and nothing else.
pub fn calls_stay_within_their_open_file()
    ensures seek { (s : FileState) (fd high low whence : ℕ) → StaysWithin s (seek_of s fd high low whence).state fd }
    ensures read { (s : FileState) (fd count : ℕ) → StaysWithin s (read_of s fd count).state fd }
    ensures write { (s : FileState) (fd : ℕ) (bytes : List ℕ) → StaysWithin s (write_of s fd bytes).state fd }
    ensures unlink_at { (s : FileState) (dir : ℤ) (path : List ℕ) (flags : ℕ) → TakesAName s (unlink_at_of s dir path flags).state }
{}
