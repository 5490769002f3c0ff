// The kinds of calls by their letters.
ghost use Rattle.std.specs.Prelude.{◌≡◌};
ghost use Rattle.any_call.specs.Kinds.{contracts, moves};

use text::letters::{B, J, M, P, S, W};

// J or S.
pub fn is_contracting(letter: u32) -> bool
    ensures { result ≡ contracts letter }
{
    letter == J || letter == S
}

// M, B, W or P.
pub fn is_moving(letter: u32) -> bool
    ensures { result ≡ moves letter }
{
    letter == M || letter == B || letter == W || letter == P
}
