// The plain data of the confidential run. What it means is in specs/.
//
// The code takes every limit and every array's length from the constants here. The definitions have the same numbers in specs/Limits.antt and
// specs/Stored.antt; where the two differ, a contract is not met.
#![tactic(auto)]

ghost use Rattle.std.specs.Prelude.{◌≡◌, ◌<◌, ◌≤◌, replicate};
ghost use Rattle.model.specs.{Limits.variables, Command.blank, Execution.begun as Execution·begun, Execution.after_of, Execution.called_of};
ghost use Rattle.model.specs.{Stored.key_capacity, Stored.command_capacity, Stored.message_capacity, Stored.open_slot, Stored.absent_slot, Stored.blank_line};
ghost use Rattle.model.specs.{Stored.nothing_stored};
ghost use Rattle.model.specs.Form.{form_one, form_two, form_of, third_of};
ghost use Rattle.model.specs.declared.Op.TheVariants.{Set};

// The limits of every sheet.
pub const MOST_BYTES: usize = 16384;

pub const LAST_VARIABLE: u64 = 7;

// The words of the table of commands.
pub const WORDS: u32 = 15;

// The forms of sheets: their numbers go from 1 to this.
pub const FORMS: u64 = 2;

// The limits of a sheet, of either form.
const MOST_KEYS: u64 = 8;

const MOST_COMMANDS: usize = 64;

const MOST_MESSAGES: usize = 32;

const MOST_LETTERS: usize = 1024;

// The ends of the range of numbers, without their signs.
pub const GREATEST_NUMBER: u64 = 2147483647;

pub const LEAST_NUMBER: u64 = 2147483648;

// What the arrays hold, at least as much as a sheet may have.
pub const KEY_CAPACITY: usize = 8;

pub const COMMAND_CAPACITY: usize = 64;

pub const MESSAGE_CAPACITY: usize = 32;

pub const LETTER_CAPACITY: usize = 1024;

pub const VARIABLES: usize = 8;

// The numbers of an answer, and the bytes of the answer memory, four for each.
pub const NUMBERS: usize = 7;

pub const ANSWER_BYTES: usize = 4 * NUMBERS;

// The numbers of an answer to the writing of a text, and their bytes.
pub const TEXT_NUMBERS: usize = 3;

pub const TEXT_ANSWER_BYTES: usize = 4 * TEXT_NUMBERS;

// Why a sheet, an export, a program with blocks or a record is refused, by the number that is told.
#[derive(Clone, Copy, Debug, PartialEq, Eq)]
pub enum Refusal {
    TooLong = 1,
    Spoilt = 2,
    Misplaced = 3,
    BadNumber = 4,
    KeyOrder = 5,
    BadCommand = 6,
    FarTarget = 7,
    TooMany = 8,
    BadLetters = 9,
    BadRow = 41,
    BadField = 42,
    ShortForLog = 43,
    BadOwner = 46,
    Unsayable = 47,
    HasForm = 48,
    ShortForForm = 49,
    UnpairedBlock = 51,
    TooDeep = 52,
    ShortForBlocks = 53,
    BadRecord = 54,
    ShortForRecord = 55,
}

impl From<Refusal> for u32 {
    ghost use Rattle.model.specs.Refusal.{number_of};

    ghost from_gives = { λ r n. n ≡ number_of r };

    fn from(refusal: Refusal) -> u32 {
        refusal as u32
    }
}

// A refusal with the line of the sheet, or the row of the export, that it names; 0 where it names none.
#[derive(Clone, Copy, Debug, PartialEq, Eq)]
pub struct Fault {
    pub refusal: Refusal,
    pub line: u32,
}

// A refusal with the line that it names of a text of any length.
#[derive(Clone, Copy, Debug, PartialEq, Eq)]
pub struct TextFault {
    pub refusal: Refusal,
    pub line: usize,
}

impl From<Fault> for TextFault {
    ghost use Rattle.model.specs.Refusal.{text_fault};

    ghost from_gives = { λ f g. g ≡ text_fault f };

    fn from(fault: Fault) -> TextFault {
        TextFault {
            refusal: fault.refusal,
            line: fault.line as usize,
        }
    }
}

// A form of sheets, which the line `sheet` chooses: the most keys, commands, messages and letters that such a sheet
// may have, the bytes of the letters of its low turns and of the first owner's, and whether there is a second owner,
// so that each `secret` line names one.
#[derive(Clone, Copy)]
pub struct Form {
    pub number: u64,
    pub keys: u64,
    pub commands: usize,
    pub messages: usize,
    pub letters: usize,
    pub low: u8,
    pub high: u8,
    pub owners: bool,
}

impl Form {
    // The form of a number.
    pub fn of(number: u64) -> Form
        ensures { result ≡ form_of number }
    {
        if number == 2 {
            return Form::two();
        }
        Form::one()
    }

    // The letter of the second owner's turns, or where there is none that of the first's again: so a byte is held to
    // three letters whatever the form.
    pub fn third(self) -> u8
        ensures { result ≡ third_of self }
    {
        if self.owners { b'B' } else { self.high }
    }

    // The form of `sheet=1`: one owner, who is not named.
    pub fn one() -> Form
        ensures { result ≡ form_one }
    {
        Form {
            number: 1,
            keys: MOST_KEYS,
            commands: MOST_COMMANDS,
            messages: MOST_MESSAGES,
            letters: MOST_LETTERS,
            low: b'L',
            high: b'H',
            owners: false,
        }
    }

    // The form of `sheet=2`: two owners.
    pub fn two() -> Form
        ensures { result ≡ form_two }
    {
        Form {
            number: 2,
            keys: MOST_KEYS,
            commands: MOST_COMMANDS,
            messages: MOST_MESSAGES,
            letters: MOST_LETTERS,
            low: b'L',
            high: b'A',
            owners: true,
        }
    }
}

// An entry of a message: absent, or one number.
#[derive(Clone, Copy, PartialEq, Eq)]
pub enum Entry {
    Absent,
    Number(i32),
}

// A key's fields in the message that the executions share, one for each.
#[derive(Clone, Copy)]
pub struct Field {
    pub low: Entry,
    pub a: Entry,
    pub b: Entry,
}

// The owners of secrets. In a sheet of the first form all are A's.
#[derive(Clone, Copy, PartialEq, Eq)]
pub enum Owner {
    A,
    B,
}

// A key is open, or secret with its owner and its dummy.
#[derive(Clone, Copy, PartialEq, Eq)]
pub enum Key {
    Open,
    Secret(Owner, i32),
}

// The words of the commands.
#[derive(Clone, Copy, PartialEq, Eq)]
pub enum Op {
    Set,
    Add,
    Sub,
    Mul,
    Div,
    Read,
    Has,
    Put,
    Drop,
    IfNeg,
    IfZero,
    Jump,
    Receive,
    Send,
    Stop,
}

// A command: v and w are variables, k a key, t a target, n a number. An operand that the word lacks is 0. With a target of four bytes the fields leave no gap.
#[derive(Clone, Copy)]
pub struct Command {
    pub op: Op,
    pub v: u8,
    pub w: u8,
    pub k: u8,
    pub t: u32,
    pub n: i32,
}

// The operand that a part of a command's line gives.
#[derive(Clone, Copy, PartialEq, Eq)]
pub enum Operand {
    InV,
    InW,
    InK,
    InT,
    InN,
}

// The kind of call that a command is.
#[derive(Clone, Copy, PartialEq, Eq)]
pub enum Call {
    Neither,
    Receives,
    Sends,
}

// What one of the four operations gives: the value that is stored, and 1 if its exact result lay outside the range, else 0.
#[derive(Clone, Copy)]
pub struct Computed {
    pub value: i32,
    pub clamps: usize,
}

// An execution's level, which is also a letter of turns: L, or that of an owner.
#[derive(Clone, Copy, PartialEq, Eq)]
pub enum Level {
    Low,
    High(Owner),
}

// The record of one execution: its place, the calls that it has made, its clamped results, and its variables. These come last: the compiler knows that a
// store into an array changes nothing before it.
#[derive(Clone, Copy)]
pub struct Execution {
    pub place: usize,
    pub calls: usize,
    pub clamped: usize,
    pub vars: [i32; VARIABLES],
}

// Each method takes the record whole and gives back the next one, the form that document 01 names.
impl Execution {
    // The record at first: all 0.
    pub fn begun() -> Execution
        ensures { result ≡ Execution·begun }
    {
        Execution {
            place: 0,
            calls: 0,
            clamped: 0,
            vars: [0i32; VARIABLES],
        }
    }

    // The next record after a call.
    pub fn called(mut self) -> Execution
        requires { (self.place < 4294967296) × (self.calls < 4294967296) }
        ensures { result ≡ called_of self }
    {
        self.place += 1;
        self.calls += 1;
        self
    }

    // The next record after a command of this kind of call: the variable v has the value of its effect, and the
    // execution goes on at its place, with the clamped results by then.
    //
    // The places of the array are constants here and in `run_step::holds`, so that a compiler that sees both stores the
    // one change and copies no record.
    pub fn after(mut self, v: usize, call: Call, effect: Effect) -> Execution
        requires { (v < variables) × (self.calls < 4294967296) }
        ensures { result ≡ after_of self v call effect }
    {
        let value = effect.value;
        match v {
            0 => self.vars[0] = value,
            1 => self.vars[1] = value,
            2 => self.vars[2] = value,
            3 => self.vars[3] = value,
            4 => self.vars[4] = value,
            5 => self.vars[5] = value,
            6 => self.vars[6] = value,
            _ => self.vars[7] = value,
        }
        self.place = effect.place;
        self.calls += usize::from(call != Call::Neither);
        self.clamped = effect.clamped;
        self
    }
}

// What a command does: the next place, the value for its variable, the clamped results of its execution by then, and the entry for its key.
#[derive(Clone, Copy)]
pub struct Effect {
    pub place: usize,
    pub value: i32,
    pub clamped: usize,
    pub entry: Entry,
}

// The clock of a run: the positions used, and the low steps.
#[derive(Clone, Copy, Default)]
pub struct Clock {
    pub positions: usize,
    pub steps: usize,
}

// How a run ends from its state, by the number that is told.
#[derive(Clone, Copy, PartialEq, Eq)]
pub enum Ending {
    Stopped = 0,
    LettersUsed = 31,
    NoRoom = 32,
}

impl From<Ending> for u32 {
    ghost use Rattle.model.specs.Answer.{ending_number};

    ghost from_gives = { λ e n. n ≡ ending_number e };

    fn from(ending: Ending) -> u32 {
        ending as u32
    }
}

// What a run counts.
#[derive(Clone, Copy)]
pub struct Counts {
    pub positions: u32,
    pub steps: u32,
    pub bytes: u32,
    pub taken: u32,
    pub clamped: u32,
}

// What a run that ends comes to: its ending, with what it counted.
#[derive(Clone, Copy)]
pub struct Ended {
    pub ending: Ending,
    pub counts: Counts,
}

// What the writing of a text answers: 0 or a refusal's number, the line that it names, and the bytes written. The line may be any of a text of any length.
#[derive(Clone, Copy)]
pub struct TextAnswer {
    pub number: u32,
    pub line: usize,
    pub bytes: u32,
}

// One key of an array of keys.
#[derive(Clone, Copy)]
pub struct KeySlot {
    pub key: Key,
}

// One entry of an array of entries.
#[derive(Clone, Copy)]
pub struct EntrySlot {
    pub entry: Entry,
}

// A message line: the entry at each key.
#[derive(Clone, Copy)]
pub struct MessageLine {
    pub slots: [EntrySlot; KEY_CAPACITY],
}

impl MessageLine {
    // Every entry absent.
    pub fn no_entries() -> [EntrySlot; KEY_CAPACITY]
        ensures { result ≡ replicate key_capacity absent_slot }
    {
        [EntrySlot {
            entry: Entry::Absent,
        }; KEY_CAPACITY]
    }
}

// A job in arrays. Of each array only as much counts as the number beside it says; a turn letter is its byte.
#[derive(Clone, Copy)]
pub struct StoredJob {
    pub form: u64,
    pub keys: usize,
    pub secrets: [KeySlot; KEY_CAPACITY],
    pub command_count: usize,
    pub commands: [Command; COMMAND_CAPACITY],
    pub message_count: usize,
    pub messages: [MessageLine; MESSAGE_CAPACITY],
    pub turn_count: usize,
    pub turns: [u8; LETTER_CAPACITY],
}

impl StoredJob {
    // Every key open.
    pub fn open_keys() -> [KeySlot; KEY_CAPACITY]
        ensures { result ≡ replicate key_capacity open_slot }
    {
        [KeySlot { key: Key::Open }; KEY_CAPACITY]
    }

    // The first word, its operands 0: all bytes are 0, so that the compiler clears the array at once.
    pub fn no_commands() -> [Command; COMMAND_CAPACITY]
        ensures { result ≡ replicate command_capacity (blank Set) }
    {
        [Command {
            op: Op::Set,
            v: 0,
            w: 0,
            k: 0,
            t: 0,
            n: 0,
        }; COMMAND_CAPACITY]
    }

    pub fn no_messages() -> [MessageLine; MESSAGE_CAPACITY]
        ensures { result ≡ replicate message_capacity blank_line }
    {
        let slots = MessageLine::no_entries();
        [MessageLine { slots }; MESSAGE_CAPACITY]
    }

    // The job whose counts are all 0.
    pub fn nothing() -> StoredJob
        ensures { result ≡ nothing_stored }
    {
        let secrets = StoredJob::open_keys();
        let commands = StoredJob::no_commands();
        let messages = StoredJob::no_messages();
        StoredJob {
            form: 1,
            keys: 0,
            secrets,
            command_count: 0,
            commands,
            message_count: 0,
            messages,
            turn_count: 0,
            turns: [0u8; LETTER_CAPACITY],
        }
    }
}
