// What an outside tells of itself.
ghost use Rattle.std.specs.Coded.{Coded};

/// What an outside tells of itself as plain data, by which a run over it knows it again.
pub trait Telling {
    ghost Told: { Type 0 };

    ghost told_code: { Coded Self.Told };

    ghost told: { Self → Self.Told };
}
