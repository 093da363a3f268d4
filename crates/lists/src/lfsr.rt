// Shortest linear feedback shift registers, by the six steps of J. L. Massey, 'Shift-register synthesis and BCH decoding',
// 1969. The connection list grows at the front of the answer, and the list before the last growth is at the front of
// another; a third has the copy while the two change places.
ghost use Rattle.std.specs.Prelude.{◌≡◌, ◌+◌, ◌*◌, ◌<◌, ◌≤◌, ◌++◌, length, take, drop, is_ok};
ghost use Rattle.algebra.specs.Poly.{coeff};
ghost use Rattle.algebra.specs.Register.{updated_list, register, IsShortest};
ghost use Rattle.lists.specs.Faults.{lent_after, zeros_if};
ghost use Rattle.lists.specs.Registers.{register_count, connection_list};

use crate::fault::ListFault;
use crate::fieldvec::clear;
use crate::products::product_term;
use fields::Field;
use fields::arithmetic::difference;

// Subtracts c·z^x times the old list from the connection list.
fn subtract_shifted<F: Field>(conn: &mut [F], old: &[F], c: F, x: usize)
    requires { length old.now + x ≤ length conn.old }
    ensures { conn.new ≡ updated_list F.field conn.old c x old.now }
{
    // By index, and not by a `zip`: see docs/DECISIONS.md.
    for (i, entry) in conn[x..x + old.len()].iter_mut().enumerate() {
        *entry = difference(*entry, c.mul(old[i]));
    }
}

// Step 5: the connection list is corrected and grows, and what it was becomes the old list. The lists are buffers, so that
// the number of entries in use stands beside each.
fn grow<F: Field>(
    conn: &mut [F],
    old: &mut [F],
    spare: &mut [F],
    len: usize,
    old_len: usize,
    c: F,
    x: usize,
)
    requires grows { len ≤ old_len + x }
    requires list { old_len + x ≤ length conn.old }
    requires older { old_len ≤ length old.old }
    requires kept { len ≤ length old.old }
    requires room { len ≤ length spare.old }
    ensures list { conn.new ≡ updated_list F.field (take len conn.old) c x (take old_len old.old)
        ++ drop (old_len + x) conn.old }
    ensures old { take len old.new ≡ take len conn.old }
{
    spare[..len].copy_from_slice(&conn[..len]);
    clear(&mut conn[len..old_len + x]);
    subtract_shifted(&mut conn[..old_len + x], &old[..old_len], c, x);
    old[..len].copy_from_slice(&spare[..len]);
}

// The six steps over the terms s, of which there may be none; it answers the connection list's length.
fn run<F: Field>(s: &[F], conn: &mut [F], old: &mut [F], spare: &mut [F]) -> usize
    requires list { length s.now < length conn.old }
    requires older { length s.now < length old.old }
    requires room { length s.now < length spare.old }
    ensures size { result ≡ length (connection_list F.field s.now) }
    ensures list { conn.new ≡ connection_list F.field s.now ++ drop result conn.old }
{
    conn[0] = F::ONE;
    old[0] = F::ONE;
    let mut len = 1;
    let mut old_len = 1;
    let mut old_inverse = F::ONE;
    let mut x = 1;
    // A discrepancy reads all the terms up to its own, so that an iterator over them would not serve.
    for n in 0..s.len() {
        let d = product_term(&conn[..len], s, n);
        // Step 3: a discrepancy without an inverse is ZERO.
        let Ok(inverse) = d.multiplicative_inverse() else {
            x += 1;
            continue;
        };
        let c = d.mul(old_inverse);
        if old_len + x <= len {
            // Step 4: the connection list is corrected at its length.
            subtract_shifted(&mut conn[..len], &old[..old_len], c, x);
            x += 1;
            continue;
        }
        grow(conn, old, spare, len, old_len, c, x);
        (old_len, len) = (len, old_len + x);
        old_inverse = inverse;
        x = 1;
    }
    len
}

/// The connection list of the shortest register that generates the terms s, first entry ONE, written at the front of
/// the answer list; it answers its length, the register's plus 1. For N terms the answer list has room for N + 1 entries,
/// and the second, which is all ZERO after, for 2N + 2.
pub fn berlekamp_massey<F: Field>(
    s: &[F],
    answer: &mut [F],
    second: &mut [F],
) -> Result<usize, ListFault>
    ensures number { result ≡ register_count F.field s.now (length answer.old) (length second.old) }
    ensures list { answer.new ≡ lent_after result (connection_list F.field s.now) answer.old }
    ensures after { second.new ≡ zeros_if F.field (is_ok result) second.old }
    ensures shortest { IsShortest F.field (coeff F.field s.now) (length s.now)
        (register F.field (coeff F.field s.now) (length s.now)).L (connection_list F.field s.now) }
{
    let n = s.len();
    if n == 0 {
        return Err(ListFault::Empty);
    }
    if answer.len() <= n || second.len() / 2 <= n {
        return Err(ListFault::Short);
    }
    let (old, spare) = second.split_at_mut(n + 1);
    let len = run(s, answer, old, spare);
    clear(second);
    Ok(len)
}
