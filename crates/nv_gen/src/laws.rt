// What holds of every large run.
ghost use Rattle.std.specs.Prelude.{◌≡◌, ℕ, ◌<◌, Some, Ok, length, slice_get};
ghost use Rattle.nv_bpf.specs.Texts.{filter_of};
ghost use Rattle.nv_script.specs.Scripts.{script_of};
ghost use Rattle.nv_gen.specs.Made.{numbers_of, script, rules};
ghost use Rattle.nv_gen.specs.Programs.{programs};
ghost use Rattle.nv_gen.specs.Texts.{bare, asks_beside_writes};
ghost use Rattle.nv_gen.specs.Versions.{program_at, KeepsItsCourse, FitsTheDefault};

/// The programs of a number are those of its versions, in their order.
#[tactic(auto, using(crate::proofs::Listing::programs_listed, crate::proofs::Listing::programs_counted))]
pub fn programs_stand_in_order()
    ensures count { (n : ℕ) → length (programs n) ≡ (numbers_of n).versions }
    ensures each { (n version : ℕ) → version < (numbers_of n).versions → slice_get (programs n) version ≡ Some (program_at n version) }
{}

/// Each version, once it is loaded, makes the calls of its course, whatever they are answered, and ends as the course says.
#[tactic(auto, using(crate::proofs::Runs::keeps_its_course))]
pub fn versions_keep_their_courses()
    ensures { (n version : ℕ) → version < (numbers_of n).versions → KeepsItsCourse n version }
{}

/// Each version can be loaded into a memory of the default size.
#[tactic(auto, using(crate::proofs::Runs::fits_the_default))]
pub fn versions_fit_the_default_memory()
    ensures { (n version : ℕ) → version < (numbers_of n).versions → FitsTheDefault n version }
{}

/// The script is one, with every default.
#[tactic(auto, using(crate::proofs::Reading::script_read))]
pub fn script_is_read()
    ensures { script_of script ≡ Ok bare }
{}

/// The rules are a filter.
#[tactic(auto, using(crate::proofs::Reading::rules_read))]
pub fn rules_are_read()
    ensures { filter_of 4096 rules ≡ Ok asks_beside_writes }
{}
