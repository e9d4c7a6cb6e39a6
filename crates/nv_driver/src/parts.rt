// What the lines of a run and of a service share, as it is matched.
ghost use Rattle.std.specs.Prelude.{◌≤◌, length};

use crate::limits::Limits;

/// The parts that both have.
#[derive(Clone, Copy)]
pub struct Parts<'m, 'a> {
    pub rules: Option<&'a str>,
    pub names: &'m [&'a str],
    pub limits: Limits,
    ghost few: { length names.now ≤ 8 },
}
