ghost use Rattle.std.specs.Prelude.{◌≡◌};
ghost use Rattle.values.specs.Making.{checked};

use crate::fault::MakingFault;

// The one check that each checked number is made by. The numbers stay types of their own, so that a step is not taken for a price.
pub(crate) fn within(
    least: u32,
    greatest: u32,
    fault: MakingFault,
    value: u32,
) -> Result<u32, MakingFault>
    ensures { result ≡ checked least greatest fault value }
{
    (least..=greatest)
        .contains(&value)
        .then_some(value)
        .ok_or(fault)
}
