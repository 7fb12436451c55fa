// The files that words of a command name.
ghost use Rattle.std.specs.Prelude.{◌≡◌, ◌%◌, ◌≤◌, ◌<◌, IfOk, IfErr, length};
ghost use Rattle.io.specs.Counts.{IsPrefixLen};
ghost use Rattle.files.specs.Rest.{Before, count_of};
ghost use Rattle.tool_files.specs.CodeRecords.{WholeTable, InRoom};

use crate::say;
use crate::typed::{reason_of, word};
use files::{Kind, Refused, Unread};
use node::record::RECORD_SIZE;
use outcomes::Told;
use std::env::Env;
use std::fs::File;
use troubles::Trouble;
use words::line::front;

// A file that was begun: the file beside it, and how long its name is.
#[derive(Drop)]
pub struct Draft {
    pub file: File,
    pub length: usize,
}

// Puts word `i`, the name of a file, at the start of `path`, and answers its length; 0 where it cannot be a name, and then
// says why.
//
// Ruled out: a length past the end of `path`; the whole length of a word for which `path` has no room.
pub fn name_word(rt: &HostRuntime, i: usize, path: &mut [u8]) -> usize
    ensures { IsPrefixLen result path.new }
{
    match rt.arg(i, path) {
        Ok(n) => {
            if n == 0 {
                say::trouble(rt, Trouble::NoName, i, 0);
            }
            n
        }
        Err(error) => {
            files::fail(b"the name of a file", &reason_of(error));
            0
        }
    }
}

// Says that word `i` names the file that is to be written; of a call of the system that failed, why is said already.
fn say_unread(rt: &HostRuntime, unread: Unread, i: usize) {
    match unread {
        Unread::Output => say::trouble(rt, Trouble::OneFile, i, 0),
        Unread::Failed { .. } => {}
    }
}

// Opens the file that word `i` names; none where it cannot, or where word `output` names the same file, and then says why.
pub fn open_word(rt: &HostRuntime, i: usize, output: usize, path: &[u8]) -> Option<File> {
    let mut other = io::buffer();
    let m = word(rt, output, &mut other);
    files::open_apart(rt, path, &other[..m])
        .inspect_err(|unread| say_unread(rt, *unread, i))
        .ok()
}

// Reads the file that word `i` names, as much of it as the buffer holds. Where it cannot, or where word `output` names the same file, it
// says why.
//
// Ruled out: a count past the buffer's end; the length of the whole file where the buffer holds less of it.
pub fn read_word(rt: &HostRuntime, i: usize, output: usize, buf: &mut [u8]) -> Result<usize, Unread>
    ensures read { IfOk result (λ n. IsPrefixLen n buf.new) }
    ensures before { IfErr result (λ unread. Before buf.new (count_of unread)) }
{
    let mut path = io::buffer();
    let n = name_word(rt, i, &mut path);
    if n == 0 {
        return Err(Unread::Failed { count: 0 });
    }
    let mut other = io::buffer();
    let m = word(rt, output, &mut other);
    files::read_apart(rt, &path[..n], &other[..m], buf).inspect_err(|unread| say_unread(
        rt, *unread, i,
    ))
}

// Reads all of the file that word `i` names: it has to leave the buffer's last byte free. Where it cannot, it says why; of a file that is
// too large no byte is counted.
//
// Ruled out: a count past the buffer's end; bytes counted of a file that is too large.
pub fn read_whole(
    rt: &HostRuntime,
    i: usize,
    output: usize,
    buf: &mut [u8],
) -> Result<usize, Unread>
    ensures read { IfOk result (λ n. IsPrefixLen n buf.new × (n < length buf.new)) }
    ensures before { IfErr result (λ unread. Before buf.new (count_of unread)) }
{
    let n = read_word(rt, i, output, buf)?;
    if n < buf.len() {
        return Ok(n);
    }
    say::trouble(rt, Trouble::TooLarge, i, n);
    Err(Unread::Failed { count: 0 })
}

// How the reading of a table into a room went.
#[derive(Drop)]
pub enum Records {
    // It is read whole: so many bytes.
    Whole(usize),
    // The room is full, and the file, which is open yet, may have more.
    More(File),
    // It was said what went wrong.
    Failed,
}

// A file of so many bytes as a table: whole records.
fn records_of(rt: &HostRuntime, count: usize, i: usize) -> Records
    ensures { WholeTable count result }
{
    if count % RECORD_SIZE == 0 {
        return Records::Whole(count);
    }
    say::trouble(rt, Trouble::NoTable, i, count);
    Records::Failed
}

// Reads on an open table, of which `kept` bytes are in the room, and closes it where no more is to be read.
fn read_records(
    rt: &HostRuntime,
    file: File,
    i: usize,
    name: &[u8],
    room: &mut [u8],
    kept: usize,
) -> Records
    requires { kept ≤ length room.old }
    ensures { InRoom room.new result }
{
    let Ok(count) = files::read_on(&file, name, room, kept) else {
        return Records::Failed;
    };
    if count == room.len() {
        return Records::More(file);
    }
    files::close(file);
    records_of(rt, count, i)
}

// Opens the table that word `i` names; none where it cannot, or where word `output` names the same file, and then says why.
pub fn open_table(rt: &HostRuntime, i: usize, output: usize) -> Option<File> {
    let mut name = io::buffer();
    let n = name_word(rt, i, &mut name);
    if n == 0 {
        return None;
    }
    open_word(rt, i, output, &name[..n])
}

// Reads an open table, which word `i` names, into a room that may be too small for it.
//
// Ruled out: a count past the room's end; bytes counted of a file that is no table.
pub fn read_table(rt: &HostRuntime, file: File, i: usize, room: &mut [u8]) -> Records
    ensures { InRoom room.new result }
{
    let mut name = io::buffer();
    let n = name_word(rt, i, &mut name);
    read_records(rt, file, i, &name[..n], room, 0)
}

// Reads the rest of that table, after its first bytes, into a room that holds any table.
//
// Ruled out: a count past the room's end; bytes counted of a file that is too large.
pub fn read_rest(rt: &HostRuntime, file: File, i: usize, first: &[u8], room: &mut [u8]) -> Records
    requires { length first.now ≤ length room.old }
    ensures { InRoom room.new result }
{
    wire::copy(first, room);
    let mut name = io::buffer();
    let n = name_word(rt, i, &mut name);
    let kept = first.len();
    match read_records(rt, file, i, &name[..n], room, kept) {
        Records::Whole(count) => Records::Whole(count),
        Records::More(file) => {
            files::close(file);
            say::trouble(rt, Trouble::TooLarge, i, room.len());
            Records::Failed
        }
        Records::Failed => Records::Failed,
    }
}

// Whether an open file, which word `i` names, is not the one that word `output` names; where it is, or cannot be told from it, says so.
pub fn is_apart(rt: &HostRuntime, file: &File, i: usize, output: usize) -> bool {
    let mut other = io::buffer();
    let m = word(rt, output, &mut other);
    if files::is_output(rt, file, &other[..m]) {
        say::trouble(rt, Trouble::OneFile, i, 0);
        return false;
    }
    true
}

// Says what is wrong with the name that word `i` is, or with the file that has it.
fn say_refused(rt: &HostRuntime, refused: Refused, i: usize) {
    match refused {
        Refused::LongName => say::trouble(rt, Trouble::LongName, i, 0),
        Refused::NoFile => say::trouble(rt, Trouble::NoFile, i, 0),
        Refused::Unfit(trouble, size) => say::trouble(rt, trouble, i, size as usize),
        Refused::Failed => {}
    }
}

// What was answered of the file that word `i` names; none where it was refused, and then says why.
fn unless_refused<T>(rt: &HostRuntime, answered: Result<T, Refused>, i: usize) -> Option<T> {
    match answered {
        Ok(given) => Some(given),
        Err(refused) => {
            say_refused(rt, refused, i);
            None
        }
    }
}

// Begins the file that word `i` names, and answers the file beside and how long its name is, which is at the start of `part`; none where it
// cannot, and then says why.
pub fn begin_word(
    rt: &HostRuntime,
    i: usize,
    path: &[u8],
    kind: Kind,
    is_replacing: bool,
    part: &mut [u8],
) -> Option<Draft>
    requires { 4095 ≤ length part.old }
{
    let begun = files::begin(rt, path, kind, is_replacing, part);
    let (file, length) = unless_refused(rt, begun, i)?;
    Some(Draft { file, length })
}

// Whether the file that word `i` names may be written or removed; where it may not, says why. Nothing is changed.
pub fn may_take(rt: &HostRuntime, i: usize, kind: Kind, is_replacing: bool) -> bool {
    let mut path = io::buffer();
    let n = name_word(rt, i, &mut path);
    if n == 0 {
        return false;
    }
    let place = files::place_of(rt, &path[..n], kind, is_replacing);
    unless_refused(rt, place, i).is_some()
}

// Writes the file that word `i` names, or removes it where nothing is kept; whether that was done.
fn store(
    rt: &HostRuntime,
    i: usize,
    kind: Kind,
    is_replacing: bool,
    is_kept: bool,
    bytes: &[u8],
) -> bool {
    let mut path = io::buffer();
    let n = name_word(rt, i, &mut path);
    if n == 0 {
        return false;
    }
    let stored = if is_kept {
        files::write(rt, &path[..n], kind, is_replacing, bytes)
    } else {
        files::remove(rt, &path[..n], kind, is_replacing)
    };
    unless_refused(rt, stored, i).is_some()
}

// Leaves what is told to be kept in the file that word `i` names, and then says the line.
pub fn keep(
    rt: &HostRuntime,
    i: usize,
    kind: Kind,
    is_replacing: bool,
    told: Told,
    bytes: &[u8],
    line: &[u8],
) {
    if store(
        rt,
        i,
        kind,
        is_replacing,
        told.is_kept,
        front(bytes, told.bytes),
    ) {
        say::answer(rt, front(line, told.line));
    }
}

// Removes the files that two words name, a table and a packet; neither where one may not be removed.
fn remove_both(rt: &HostRuntime, table: usize, packet: usize, is_replacing: bool) -> bool {
    if !may_take(rt, packet, Kind::Packet, is_replacing) {
        return false;
    }
    if store(rt, table, Kind::Table, is_replacing, false, b"") {
        return store(rt, packet, Kind::Packet, is_replacing, false, b"");
    }
    false
}

// Writes two files that were begun, and names them; whether they have their names.
fn write_both(
    rt: &HostRuntime,
    first: Draft,
    path: &[u8],
    part: &[u8],
    bytes: &[u8],
    second: Draft,
    other: &[u8],
    other_part: &[u8],
    other_bytes: &[u8],
) -> bool {
    if files::add(&first.file, path, bytes) {
        if files::add(&second.file, other, other_bytes) {
            return files::finish_both(rt, first.file, path, part, second.file, other, other_part);
        }
    }
    files::abandon(rt, first.file, part);
    files::abandon(rt, second.file, other_part);
    false
}

// Writes the two files, of which the first was begun.
fn store_second(
    rt: &HostRuntime,
    first: Draft,
    path: &[u8],
    part: &[u8],
    bytes: &[u8],
    packet: usize,
    is_replacing: bool,
    other_bytes: &[u8],
) -> bool {
    let mut other = io::buffer();
    let n = name_word(rt, packet, &mut other);
    let mut other_part = io::buffer();
    let Some(second) = begin_word(
        rt,
        packet,
        &other[..n],
        Kind::Packet,
        is_replacing,
        &mut other_part,
    ) else {
        files::abandon(rt, first.file, part);
        return false;
    };
    let named = front(&other_part, second.length);
    if files::is_beside(rt, &first.file, &second.file) {
        say::trouble(rt, Trouble::TwoNames, packet, 0);
        files::abandon(rt, first.file, part);
        files::abandon(rt, second.file, named);
        return false;
    }
    write_both(
        rt,
        first,
        path,
        part,
        bytes,
        second,
        &other[..n],
        named,
        other_bytes,
    )
}

// Writes the files that two words name, a table and a packet, both or neither; whether that was done.
fn store_both(
    rt: &HostRuntime,
    table: usize,
    bytes: &[u8],
    packet: usize,
    other_bytes: &[u8],
    is_replacing: bool,
) -> bool {
    let mut path = io::buffer();
    let n = name_word(rt, table, &mut path);
    if n == 0 {
        return false;
    }
    let mut part = io::buffer();
    let Some(first) = begin_word(rt, table, &path[..n], Kind::Table, is_replacing, &mut part) else {
        return false;
    };
    let length = first.length;
    store_second(
        rt,
        first,
        &path[..n],
        front(&part, length),
        bytes,
        packet,
        is_replacing,
        other_bytes,
    )
}

// Leaves what is told to be kept, a table and its packet, in the files that two words name, both or neither, and then says the line.
pub fn keep_both(
    rt: &HostRuntime,
    table: usize,
    packet: usize,
    is_replacing: bool,
    told: Told,
    bytes: &[u8],
    packet_bytes: &[u8],
    line: &[u8],
) {
    let is_done = if told.is_kept {
        store_both(
            rt,
            table,
            front(bytes, told.bytes),
            packet,
            packet_bytes,
            is_replacing,
        )
    } else {
        remove_both(rt, table, packet, is_replacing)
    };
    if is_done {
        say::answer(rt, front(line, told.line));
    }
}
