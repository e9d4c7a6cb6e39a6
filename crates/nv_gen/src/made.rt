// What a number makes.
ghost use Rattle.std.specs.Prelude.{◌≡◌, ◌≤◌, IfOk, All, length, map};
ghost use Rattle.nv_elf.specs.Elf.{Accepted};
ghost use Rattle.nv_gen.specs.Made.{numbers_of, script, rules};
ghost use Rattle.nv_gen.specs.Measures.{numbers_in, file_read_as};
ghost use Rattle.nv_gen.specs.Programs.{programs, programs_to};

use crate::measures::Measures;
use crate::version::version;
use std::alloc::{AllocError, Global};

const SCRIPT: &str = "varan-script 1\n";

// Where the leader wrote, a follower's getuid is allowed.
const RULES: &str = "6\n32 0 0 64\n21 0 3 64\n32 0 0 0\n21 0 1 174\n6 0 0 2147418112\n6 0 0 0\n";

/// A large run: the files of its versions, its script, and the rules that it runs by.
#[derive(Drop)]
pub struct Made {
    pub versions: Vec<Vec<u8>>,
    pub script: Vec<u8>,
    pub rules: Vec<u8>,
}

fn versions(alloc: Global, measures: &Measures) -> Result<Vec<Vec<u8>>, AllocError>
    ensures programs { IfOk result (λ made. map file_read_as made.items ≡ map Accepted (programs_to (numbers_in measures.now) measures.now.versions)) }
    ensures short { IfOk result (λ made. All (λ file. length file.items ≤ 4_194_304) made.items) }
{
    let mut files = Vec::new(alloc);
    for index in 0..measures.versions {
        files.push(version(alloc, measures, index)?)?;
    }
    Ok(files)
}

/// Makes the large run of a number.
pub fn make(alloc: Global, number: u32) -> Result<Made, AllocError>
    requires { number ≤ 999_999 }
    ensures versions { IfOk result (λ made. map file_read_as made.versions.items ≡ map Accepted (programs number)) }
    ensures short { IfOk result (λ made. All (λ file. length file.items ≤ 4_194_304) made.versions.items) }
    ensures script { IfOk result (λ made. made.script.items ≡ script) }
    ensures rules { IfOk result (λ made. made.rules.items ≡ rules) }
{
    let measures = Measures::of(number);
    Ok(Made {
        versions: versions(alloc, &measures)?,
        script: SCRIPT.as_bytes().to_vec(alloc)?,
        rules: RULES.as_bytes().to_vec(alloc)?,
    })
}
