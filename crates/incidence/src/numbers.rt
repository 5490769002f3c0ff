// Indices as the tables hold them: in 16 bits, and a vertex or a net by its number from 1. They have no From: the bound is a `requires`, where
// TryFrom would make each caller handle an error that cannot come.
ghost use Rattle.std.specs.Prelude.{◌+◌, ◌<◌, ◌≡◌};

// The number from 1 of what stands at the place `i`.
pub fn number(i: usize) -> u16
    requires { i < 65535 }
    ensures { result ≡ i + 1 }
{
    (i + 1) as u16
}

// A number as a table holds it.
pub fn narrow(x: usize) -> u16
    requires { x < 65536 }
    ensures { result ≡ x }
{
    x as u16
}
