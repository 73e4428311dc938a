// The belt log's export: rows that carriage return and line feed end, fields that commas divide; the keys of the first
// row, the messages of the others.
#![tactic(auto)]

ghost use Rattle.std.specs.Prelude.{◌≡◌, [], ◌≤◌, length, replicate};
ghost use Rattle.model.specs.{Refusal.parsed, Refusal.parsed_by, Stored.entries_in, Text.comma, Text.split};
ghost use Rattle.model.specs.declared.Entry.TheVariants.{Absent};
ghost use Rattle.model_log.specs.Log.{key_count, spoils, field, entries, rows, further, read_log};
ghost use Rattle.read_log.specs.Log.{scan, KeysHeld, KeysRead, RowTaken, LogRead};

use model::{Entry, EntrySlot, Fault, Form, MESSAGE_CAPACITY, MessageLine, Refusal};
use read_messages::Parts;
use read_text::{number_of, up_to};

// A log has the keys 0 to 7, whatever sheets may have.
pub const LOG_KEYS: usize = 8;

const GREATEST_KEY: u64 = 7;

// The first count keys of the array.
#[derive(Clone, Copy)]
pub struct Keys {
    pub count: usize,
    pub keys: [u8; LOG_KEYS],
}

// Whether a byte before a row's end spoils it: a quote mark, or what is then a bare carriage return or line feed.
fn spoils(b: u8) -> bool
    ensures { result ≡ spoils b }
{
    b == b'"' || b == b'\r' || b == b'\n'
}

// The end of the first row and the count of its fields, in one pass. The bytes that matter here all lie below the minus
// sign, and those of numbers do not. The comma is tested first, then all that lies above the quote mark is passed: of a
// choice among four single bytes a compiler makes a table.
fn scan_row(s: &[u8]) -> Result<(usize, usize), Refusal>
    ensures { parsed result ≡ scan 0 1 s.now }
{
    let mut fields: usize = 1;
    for i in 0..s.len().saturating_sub(1) {
        let b = s[i];
        if b'-' <= b {
            continue;
        }
        if b == b',' {
            fields += 1;
            continue;
        }
        if b'"' < b {
            continue;
        }
        if b == b'\r' && s[i + 1] == b'\n' {
            return Ok((i, fields));
        }
        if spoils(b) {
            return Err(Refusal::BadRow);
        }
    }
    Err(Refusal::BadRow)
}

// The key numbers of the first row.
fn read_keys(t: &[u8]) -> Result<Keys, Refusal>
    ensures { KeysRead t.now result }
{
    let mut keys = [0u8; LOG_KEYS];
    let mut count: usize = 0;
    let mut next: u64 = 0;
    for part in Parts::of(t) {
        let k = up_to(part, GREATEST_KEY).map_err(|_| Refusal::BadField)?;
        if k < next {
            return Err(Refusal::BadField);
        }
        keys[count] = k as u8;
        count += 1;
        next = k + 1;
    }
    Ok(Keys { count, keys })
}

// One field of a message: an entry, absent where the field is empty.
fn read_field(f: &[u8]) -> Result<Entry, Refusal>
    ensures { parsed result ≡ field f.now }
{
    if f.is_empty() {
        return Ok(Entry::Absent);
    }
    let v = number_of(f).map_err(|_| Refusal::BadField)?;
    Ok(Entry::Number(v))
}

// The message of a row: each field at its key.
fn read_row(t: &[u8], keys: &[u8]) -> Result<MessageLine, Refusal>
    requires { KeysHeld keys.now }
    ensures { parsed_by (entries_in key_count) result ≡ entries keys.now (split comma t.now) (replicate key_count Absent) }
{
    let mut slots = MessageLine::no_entries();
    for (&k, f) in keys.iter().zip(Parts::of(t)) {
        let entry = read_field(f)?;
        slots[k as usize] = EntrySlot { entry };
    }
    Ok(MessageLine { slots })
}

// The message of the first row of a text that is not empty, and the bytes up to the next row.
fn take_row(t: &[u8], keys: &[u8]) -> Result<(MessageLine, usize), Refusal>
    requires { KeysHeld keys.now × (1 ≤ length t.now) }
    ensures { RowTaken keys.now t.now result }
{
    let (e, fields) = scan_row(t)?;
    if fields != keys.len() {
        return Err(Refusal::BadRow);
    }
    let line = read_row(&t[..e], keys)?;
    Ok((line, e + 2))
}

// The rows from the second on: each is a message at the front of an array; how many there are.
fn read_further(
    s: &[u8],
    keys: &[u8],
    messages: &mut [MessageLine; MESSAGE_CAPACITY],
) -> Result<usize, Fault>
    requires { KeysHeld keys.now }
    ensures { LogRead (further keys.now 2 [] (rows s.now)) result messages.new }
{
    let form = Form::one();
    let mut count: usize = 0;
    let mut row: u32 = 2;
    let mut left = s;
    while !left.is_empty() {
        if form.messages <= count {
            return Err(Fault {
                refusal: Refusal::TooMany,
                line: row,
            });
        }
        let taken = take_row(left, keys);
        let (line, size) = taken.map_err(|refusal| Fault { refusal, line: row })?;
        messages[count] = line;
        count += 1;
        row += 1;
        left = &left[size..];
    }
    Ok(count)
}

// An export: any bytes, of any length. Its messages go to the front of an array; how many there are. The line of a
// refusal is the row.
pub fn read_log(s: &[u8], messages: &mut [MessageLine; MESSAGE_CAPACITY]) -> Result<usize, Fault>
    ensures { LogRead (read_log s.now) result messages.new }
{
    let in_first = |refusal| Fault { refusal, line: 1 };
    let (e, _) = scan_row(s).map_err(in_first)?;
    let header = read_keys(&s[..e]).map_err(in_first)?;
    read_further(&s[e + 2..], &header.keys[..header.count], messages)
}
