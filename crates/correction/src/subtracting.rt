// Changes subtracted from a slip's row. Symbols are numbers here, as the slip has them, so each function says that they are below the code's size.
ghost use Rattle.std.specs.Prelude.{◌≡◌, ◌<◌, ◌≤◌, All, map, length};
ghost use Rattle.book.specs.Book.{row, undoubted_place};
ghost use Rattle.book.specs.Mending.{row_less};
ghost use Rattle.slip.specs.View.{IsHoldable};

use book::Record;
use checksum::Checksum;
use checksum::symbols::{element, number};
use fields::arithmetic::difference;
use slip::Slip;

// A slip with the changes subtracted from the row, nothing doubted. The row is worked on in fixed memory, as long as any
// slip's.
pub(crate) fn mended<C: Checksum>(slip: &Slip, records: &[Record]) -> Slip
    requires { All (λ c. c.change < C.rows.size) records.now }
    ensures mended { result ≡ map undoubted_place (row_less C.rows records.now (row slip.now)) }
    ensures holdable { IsHoldable result }
{
    C::laws();
    let mut memory = [0; 89];
    let symbols = &mut memory[..slip.len()];
    symbols.copy_from_slice(slip.symbols());
    subtract::<C>(symbols, records);
    undoubted(symbols)
}

// Subtracts each change from the symbol at its place.
fn subtract<C: Checksum>(symbols: &mut [u8], records: &[Record])
    requires small { All (λ v. v < C.rows.size) symbols.old }
    requires changes { All (λ c. c.change < C.rows.size) records.now }
    ensures subtracted { symbols.new ≡ row_less C.rows records.now symbols.old }
    ensures below { All (λ v. v < C.rows.size) symbols.new }
{
    for record in records {
        if record.place < symbols.len() {
            symbols[record.place] = sub::<C>(symbols[record.place], record.change);
        }
    }
}

// A slip that holds a row, nothing doubted.
fn undoubted(symbols: &[u8]) -> Slip
    requires small { All (λ v. v < 32) symbols.now }
    requires room { length symbols.now ≤ 89 }
    ensures { result ≡ map undoubted_place symbols.now }
{
    let mut slip = Slip::new();
    for symbol in symbols {
        slip.write(*symbol).unwrap();
    }
    slip
}

// One symbol less another.
fn sub<C: Checksum>(x: u8, y: u8) -> u8
    requires left { x < C.rows.size }
    requires right { y < C.rows.size }
    ensures sub { result ≡ C.rows.sub x y }
    ensures below { result < C.rows.size }
{
    C::laws();
    let x = element::<C>(x).unwrap();
    let y = element::<C>(y).unwrap();
    number::<C>(difference(x, y))
}
