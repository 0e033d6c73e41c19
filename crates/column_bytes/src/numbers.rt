// Sizes and numbers of columns, which are wider for C than a byte.
ghost use Rattle.std.specs.Prelude.{◌≡◌};
ghost use Rattle.column_bytes.specs.Calls.{narrow as narrow_of};

// A size or a column's number as a byte; from 256 on 255, which is refused everywhere.
#[tactic(auto, unfolding(crate::specs::Calls::narrow))]
pub fn narrow(v: u32) -> u8
    ensures { result ≡ narrow_of v }
{
    u8::try_from(v).unwrap_or(255)
}
