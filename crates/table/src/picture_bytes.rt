// The bytes of a picture, and the call on the entries of a table.
ghost use Rattle.std.specs.Prelude.{◌≡◌, cond, ◌++◌, ◌+◌, ◌*◌, ◌≤◌, length, take, drop};
ghost use Rattle.table.specs.Minimal as M;
ghost use Rattle.table.specs.Picture as P;
ghost use Rattle.table.specs.Entries.{entries_of};
ghost use Rattle.table.specs.inner.Slots.{TableRoom};
ghost use Rattle.table.specs.inner.PictureClauses.{PictureRoom, picture_answer};
ghost use Rattle.table.specs.PictureCalls.{refusal, given, written};
ghost use Rattle.sheet.specs.Limits.{most_entries};

use crate::entries::Entries;
use crate::picture_order::sorted_clauses;
use crate::tables::described;
use sheet::Fault;

// A mask in four bytes, high byte first.
#[tactic(auto, using(crate::proofs::laws::pictures::MaskBytes::mask_put))]
pub(crate) fn write_mask(buffer: &mut [u8], at: usize, mask: u32)
    requires { at + 4 ≤ length buffer.old }
    ensures { buffer.new ≡ take at buffer.old ++ P.mask_bytes mask (drop (at + 4) buffer.old) }
{
    buffer[at..at + 4].copy_from_slice(&mask.to_be_bytes());
}

// The count in two bytes, then the masks of each clause. Later bytes are kept.
pub(crate) fn write_picture(clauses: &Entries, buffer: &mut [u8])
    requires { PictureRoom (length clauses.now) buffer.old }
    ensures { buffer.new ≡ P.picture_bytes clauses.now ++ drop (2 + 8 * length clauses.now) buffer.old }
{
    let count = clauses.len();
    buffer[..2].copy_from_slice(&(count as u16).to_be_bytes());
    for i in 0..count {
        let clause = clauses.at(i);
        let at = 2 + 8 * i;
        write_mask(buffer, at, clause.trues);
        write_mask(buffer, at + 4, clause.falses);
    }
}

// The picture of the first count entries in the buffer, by how many clauses; 22, 21, 23 in this order. Refused, every byte is as it was.
#[tactic(auto, using(crate::proofs::laws::pictures::HandedClauses::drawing), unfolding(crate::specs::PictureCalls::refusal))]
pub(crate) fn draw(
    n: usize,
    trues: &[u32],
    falses: &[u32],
    count: usize,
    buffer: &mut [u8],
) -> Result<usize, Fault>
    requires { TableRoom trues.now falses.now }
    ensures value { picture_answer result ≡ cond (M.described most_entries n (entries_of count trues.now falses.now)) (given (P.picture (entries_of count trues.now falses.now)) (length buffer.old)) (refusal 22 0) }
    ensures buffer_after { buffer.new ≡ cond (M.described most_entries n (entries_of count trues.now falses.now)) (written (P.picture (entries_of count trues.now falses.now)) buffer.old) buffer.old }
{
    let Some(entries) = described(n, trues, falses, count) else {
        return Err(Fault {
            number: 22,
            position: 0,
        });
    };
    let Some(sorted) = sorted_clauses(&entries) else {
        return Err(Fault {
            number: 21,
            position: 0,
        });
    };
    let clauses = sorted.len();
    if buffer.len() < 2 + 8 * clauses {
        return Err(Fault {
            number: 23,
            position: 0,
        });
    }
    write_picture(&sorted.entries(), buffer);
    Ok(clauses)
}
