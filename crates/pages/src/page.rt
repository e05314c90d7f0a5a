// Pages of records, whichever kind of record they hold: how they are made, read and decoded.
ghost use Rattle.std.specs.Prelude.{◌≡◌, ◌+◌, ◌*◌, ◌<◌, ◌≤◌, ◌++◌, min, length, take, drop, slice_index};
ghost use Rattle.std.specs.Bool.{Decides};
ghost use Rattle.std.specs.List.{flat_map};
ghost use Rattle.layout.specs.Padded.{Decodes};
ghost use Rattle.pages.specs.Bytes.{Room, Holds, values, page_of, records_of};
ghost use Rattle.pages.specs.Decoding.{Few, told, Decoded, RowDecoded};

use crate::stored::Stored;
use rows::row::Row;

// Writes the records one after another, from byte 32 on.
fn write_all<R: Stored>(records: &[R], page: &mut [u8; 512])
    requires { Room R.WIDE (length records.now) }
    ensures { page.new ≡ take 32 page.old ++ flat_map R.bytes records.now ++ drop (32 + R.WIDE * length records.now) page.old }
{
    let wide = R::WIDE;
    // By places: a proof does not know what `chunks_exact_mut` leaves in a page, and with a rest that is split off in each turn it would have to say the page by the ends of as many loans.
    for (i, record) in records.iter().enumerate() {
        let at = 32 + wide * i;
        record.write(&mut page[at..at + wide]);
    }
}

// Reads as many records as there are places, from byte 32 on.
fn read_all<R: Stored + Copy>(page: &[u8; 512], out: &mut [R])
    requires { Room R.WIDE (length out.old) }
    ensures { out.new ≡ values R.value R.WIDE (length out.old) (drop 32 page.now) }
{
    // By a rest, and not by a `zip` with `chunks_exact(R::WIDE)`: that was tried, and it requires that a record has at least one byte, which no kind of record promises.
    let mut rest = &page[32..];
    for record in out.iter_mut() {
        let (bytes, behind) = rest.split_at(R::WIDE);
        *record = R::read(bytes);
        rest = behind;
    }
}

/// Makes a page of records: N and a letter, their count, and from byte 32 on the records.
// The letter is an argument, and no constant of the record's kind: such a constant would be asked of all that implement `Stored`, and no page of a kind could be told to stand under the letter of another.
// That the records fit is asked here, by `formed` and by those who write a page: a type for records that fit would be made at each call, by the proof that is asked now.
// Into the caller's bytes, as all that fills a sector or a page: a volume works in the memory that it has, and makes no copy of a page.
pub fn write_page<R: Stored>(letter: u8, records: &[R], page: &mut [u8; 512])
    requires { Holds R.WIDE (length records.now) }
    ensures { page.new ≡ page_of R.bytes letter records.now }
{
    *page = [0; 512];
    page[0] = b'N';
    page[1] = letter;
    page[2] = records.len() as u8;
    write_all(records, page);
}

/// Reads the records of a page, at most so many, and says how many there are.
// A count, and the records in the caller's memory, as `decode_page` too: `read_row` and `decode_row` answer a row.
pub fn read_page<R: Stored + Copy>(page: &[u8; 512], most: usize, out: &mut [R]) -> usize
    requires { Room R.WIDE most × (most ≤ length out.old) }
    ensures count { result ≡ min (slice_index page.now 2) most }
    ensures held { take result out.new ≡ records_of R.value R.WIDE most page.now }
    ensures rest { drop result out.new ≡ drop result out.old }
{
    let n = (page[2] as usize).min(most);
    read_all(page, &mut out[0..n]);
    n
}

/// Whether a page is just what these records make under a letter.
pub fn formed<R: Stored>(letter: u8, records: &[R], page: &[u8; 512]) -> bool
    requires { Holds R.WIDE (length records.now) }
    ensures { Decides result (page.now ≡ page_of R.bytes letter records.now) }
{
    let mut made = [0; 512];
    write_page(letter, records, &mut made);
    *page == made
}

/// Reads the records of a page, as many as there are places, and says how many there are, if the page is just what they make under a letter.
pub fn decode_page<R: Stored + Copy>(letter: u8, page: &[u8; 512], out: &mut [R]) -> Option<usize>
    requires { Holds R.WIDE (length out.old) }
    ensures value { Decoded R.fit R.bytes R.value R.WIDE letter (length out.old) page.now out.new result }
    ensures law { Decodes (Few R.fit (length out.old)) (page_of R.bytes letter) page.now (told out.new result) }
    ensures read { out.new ≡ records_of R.value R.WIDE (length out.old) page.now ++ drop (min (slice_index page.now 2) (length out.old)) out.old }
{
    let n = read_page(page, out.len(), out);
    formed(letter, &out[..n], page).then_some(n)
}

/// The records of a page, at most so many.
pub fn read_row<R: Stored + Copy + Default, const N: usize>(
    page: &[u8; 512],
    most: usize,
) -> Row<R, N>
    requires room { Room R.WIDE most }
    requires within { most ≤ N }
    ensures { result ≡ records_of R.value R.WIDE most page.now }
{
    let mut records = [R::default(); N];
    let count = read_page(page, most, &mut records);
    Row::of(records, count)
}

/// The records of a page, if it is just what they make under a letter.
pub fn decode_row<R: Stored + Copy + Default, const N: usize>(
    letter: u8,
    page: &[u8; 512],
) -> Option<Row<R, N>>
    requires { Holds R.WIDE N }
    ensures value { RowDecoded R.fit R.bytes R.value R.WIDE letter N page.now result }
    ensures law { Decodes (Few R.fit N) (page_of R.bytes letter) page.now result }
{
    let mut records = [R::default(); N];
    let count = decode_page(letter, page, &mut records)?;
    Some(Row::of(records, count))
}
