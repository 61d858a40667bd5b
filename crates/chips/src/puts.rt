//! Rows of puts.
ghost use Rattle.std.specs.Prelude.{◌≡◌};
ghost use Rattle.chips.specs.Puts.{puts_common, puts_rx, puts_tx};

use blocks::RegBlock;
use fields::Field;

/// Puts each number of a row into its field, in order.
pub fn put_row<B: RegBlock>(block: &mut B, row: &[(Field, u32)])
    ensures tx { B.tx block.new ≡ puts_tx row.now (B.tx block.old) }
    ensures rx { B.rx block.new ≡ puts_rx row.now (B.rx block.old) }
    ensures common { B.common block.new ≡ puts_common row.now (B.common block.old) }
{
    for (field, number) in row {
        block.put(*field, *number);
    }
}
