use crate::calls::{call, failing};
use outside::{MemShelf, OpenGate};
use std::alloc::Global;
use std::process::Abort;
use std::sync::Wait;
use std::test::Fail;
use std::thread::Threads;

// Rows have a `#` between them, and their cells a `;`: the words of the call, the input, the files, the calls that fail, and what
// comes of it: the output, the status, the text, and files. Words have a `,` between them, and so have files, each of which is its
// name, `=` and its bytes, or its name alone where it isn't there. Of the reads, the writes, the tellings of a text and the calls of
// files one may fail, which a digit for each names; 0 is none. `{abc*4}` is `abc` four times, and `{usage}` the line of how the
// program is called.

const FAULTS: &str = "\
console | locate /b/ | console;ab\ncd\nb;;0100;;6;write fault\n;#\
console | nosuch;;;0010;;6;;#\
< access.log | console;;access.log=a\n;0001;;7;shelf fault access.log\n;#\
(endchar ?) < m | l: lookup 1.1 | console ? < d | l:;;m=a\n,d=a\n;0002;;7;shelf fault d\n;#\
(endchar ?) literal a | > x ? literal b | > y;;;0002;;7;shelf fault y\n;x=a\n,y#\
literal a | > x,--trace,j;;;0002;;7;shelf fault j\n;x=a\n,j";

// Each call in turn fails of one that reads two files and the input, writes the output, and replaces two files and that of the journal.
const TURNS: &str = "\
(endchar ?) < a | f: fanin | > x | console ? < b | f: ? console | > y,--trace,t;3\n;a=1\n,b=2\n,x=old,y=old,t=old;1000;;5;read fault\n;x=old,y=old,t=old#\
(endchar ?) < a | f: fanin | > x | console ? < b | f: ? console | > y,--trace,t;3\n;a=1\n,b=2\n,x=old,y=old,t=old;2000;;5;read fault\n;x=old,y=old,t=old#\
(endchar ?) < a | f: fanin | > x | console ? < b | f: ? console | > y,--trace,t;3\n;a=1\n,b=2\n,x=old,y=old,t=old;3000;1\n2\n;0;;x=1\n2\n,y=3\n#\
(endchar ?) < a | f: fanin | > x | console ? < b | f: ? console | > y,--trace,t;3\n;a=1\n,b=2\n,x=old,y=old,t=old;0100;;6;write fault\n;x=old,y=old,t=old#\
(endchar ?) < a | f: fanin | > x | console ? < b | f: ? console | > y,--trace,t;3\n;a=1\n,b=2\n,x=old,y=old,t=old;0200;1\n2\n;0;;x=1\n2\n,y=3\n#\
(endchar ?) < a | f: fanin | > x | console ? < b | f: ? console | > y,--trace,t;3\n;a=1\n,b=2\n,x=old,y=old,t=old;0010;1\n2\n;0;;x=1\n2\n,y=3\n#\
(endchar ?) < a | f: fanin | > x | console ? < b | f: ? console | > y,--trace,t;3\n;a=1\n,b=2\n,x=old,y=old,t=old;0001;;7;shelf fault a\n;x=old,y=old,t=old#\
(endchar ?) < a | f: fanin | > x | console ? < b | f: ? console | > y,--trace,t;3\n;a=1\n,b=2\n,x=old,y=old,t=old;0002;;7;shelf fault b\n;x=old,y=old,t=old#\
(endchar ?) < a | f: fanin | > x | console ? < b | f: ? console | > y,--trace,t;3\n;a=1\n,b=2\n,x=old,y=old,t=old;0003;1\n2\n;7;shelf fault x\n;y=old,t=old#\
(endchar ?) < a | f: fanin | > x | console ? < b | f: ? console | > y,--trace,t;3\n;a=1\n,b=2\n,x=old,y=old,t=old;0004;1\n2\n;7;shelf fault y\n;x=1\n2\n,t=old#\
(endchar ?) < a | f: fanin | > x | console ? < b | f: ? console | > y,--trace,t;3\n;a=1\n,b=2\n,x=old,y=old,t=old;0005;1\n2\n;7;shelf fault t\n;x=1\n2\n,y=3\n#\
(endchar ?) < a | f: fanin | > x | console ? < b | f: ? console | > y,--trace,t;3\n;a=1\n,b=2\n,x=old,y=old,t=old;0006;1\n2\n;0;;x=1\n2\n,y=3\n#\
(endchar ?) < a | f: fanin | > x | console ? < b | f: ? console | > y,--trace,t;3\n;a=1\n,b=2\n,x=old,y=old,t=old;0014;1\n2\n;6;;x=1\n2\n,t=old";

// The same of a file of three sets, of which one reads the input, two write the output, and two replace a file; and the text of
// two, of which one is refused.
const SETS: &str = "\
--sets,s;3\n;s=< a | > x\nconsole | > y | console\n< b | console\n,a=1\n,b=2\n,x=old,y=old;1000;;5;read fault\n;x=old,y=old#\
--sets,s;3\n;s=< a | > x\nconsole | > y | console\n< b | console\n,a=1\n,b=2\n,x=old,y=old;2000;;5;read fault\n;x=old,y=old#\
--sets,s;3\n;s=< a | > x\nconsole | > y | console\n< b | console\n,a=1\n,b=2\n,x=old,y=old;3000;3\n2\n;0;;x=1\n,y=3\n#\
--sets,s;3\n;s=< a | > x\nconsole | > y | console\n< b | console\n,a=1\n,b=2\n,x=old,y=old;0100;;6;write fault\n;x=old,y=old#\
--sets,s;3\n;s=< a | > x\nconsole | > y | console\n< b | console\n,a=1\n,b=2\n,x=old,y=old;0200;3\n;6;write fault\n;x=old,y=old#\
--sets,s;3\n;s=< a | > x\nconsole | > y | console\n< b | console\n,a=1\n,b=2\n,x=old,y=old;0300;3\n2\n;0;;x=1\n,y=3\n#\
--sets,s;3\n;s=< a | > x\nconsole | > y | console\n< b | console\n,a=1\n,b=2\n,x=old,y=old;0010;3\n2\n;0;;x=1\n,y=3\n#\
--sets,s;3\n;s=< a | > x\nconsole | > y | console\n< b | console\n,a=1\n,b=2\n,x=old,y=old;0001;;7;shelf fault s\n;x=old,y=old#\
--sets,s;3\n;s=< a | > x\nconsole | > y | console\n< b | console\n,a=1\n,b=2\n,x=old,y=old;0002;;7;shelf fault a\n;x=old,y=old#\
--sets,s;3\n;s=< a | > x\nconsole | > y | console\n< b | console\n,a=1\n,b=2\n,x=old,y=old;0003;;7;shelf fault b\n;x=old,y=old#\
--sets,s;3\n;s=< a | > x\nconsole | > y | console\n< b | console\n,a=1\n,b=2\n,x=old,y=old;0004;3\n2\n;7;shelf fault x\n;y=old#\
--sets,s;3\n;s=< a | > x\nconsole | > y | console\n< b | console\n,a=1\n,b=2\n,x=old,y=old;0005;3\n2\n;7;shelf fault y\n;x=1\n#\
--sets,s;3\n;s=< a | > x\nconsole | > y | console\n< b | console\n,a=1\n,b=2\n,x=old,y=old;0006;3\n2\n;0;;x=1\n,y=3\n#\
--sets,s;;s=literal a | console\nliteral a | nosuch\n;0010;a\n;6;;";

const JOURNALS: &str = "\
literal a | console,--check,j;;;;;11;journal absent\n;#\
literal a | console,--check,j;;j=;;;11;journal line 1\n;#\
literal a | console,--check,j;;j=pipe-journal 1\n;;;11;journal line 2\n;#\
literal a | console,--check,j;;j=pipe-journal 1\nend 0;;;11;journal line 2\n;#\
literal a | console,--check,j;;j=pipe-journal 1\n00 0\nend 1\n;;;11;journal line 2\n;#\
literal a | console,--check,j;;j=pipe-journal 1\n0 0\nend 2\n;;;11;journal line 3\n;#\
literal a | console,--check,j;;j=pipe-journal 1\nend 0\n\n;;;11;journal line 3\n;#\
literal a | console,--check,j;;j=pipe-journal 1\n9 0\nend 1\n;;;11;journal entry 1\n;#\
literal a | console,--check,j;;j=pipe-journal 1\nend 0\n;;legal 0 open\n;0;;";

const LIMITS: &str = "\
{a*65537};;;;;2;spec 10 at 65536\n;#\
literal a{|copy*1024};;;;;2;spec 16 at 5125\n;#\
literal a{|copy*1023};;;;;0;;#\
(endchar ?)literal x|a:fanout|hole{?a:|hole*64};;;;;2;spec 13 at 539\n;#\
(endchar ?)literal x|a:fanout|hole{?a:|hole*63};;;;;0;;#\
console | locate /b/ | console,--steps,0;ab\ncd\nb;;;;9;{usage};#\
console | locate /b/ | console,--steps,50000001;ab\ncd\nb;;;;9;{usage};#\
console | locate /b/ | console,--workers,65;ab\ncd\nb;;;;9;{usage};#\
--sample,200001;;;;;9;{usage};#\
console | count bytes | console;{aaaaaaaa*8388608};;;67108864\n;0;;";

const USAGE: &str =
    "usage: pipe SPEC [--workers N] [--steps N] [--trace NAME] [--check NAME] [--lint] | pipe --sample N | pipe --sets NAME\n";

// What a row says, written out.
fn written_out(alloc: Global, row: &str) -> Result<String, Fail> {
    let mut text = String::new(alloc);
    for part in row.split('}') {
        let (plain, braced) = part.split_once('{').unwrap_or((part, ""));
        text.push_str(plain)?;
        match braced.split_once('*') {
            Some((more, times)) => {
                for _ in 0..times.parse::<u32>().unwrap_or(0) {
                    text.push_str(more)?;
                }
            }
            None if braced == "usage" => text.push_str(USAGE)?,
            None => {}
        }
    }
    Ok(text)
}

// The numbers of a cell that names calls, or none.
fn fails_of(cell: &str) -> [u32; 4] {
    match cell.as_bytes() {
        [reads, writes, tells, files] => {
            [digit(*reads), digit(*writes), digit(*tells), digit(*files)]
        }
        _ => [0; 4],
    }
}

fn digit(byte: u8) -> u32 {
    u32::from(byte.wrapping_sub(b'0'))
}

// Puts the files of a cell on the shelf.
fn preset(shelf: &mut MemShelf, cell: &str) -> Result<(), Fail> {
    for file in cell.split(',') {
        if let Some((name, bytes)) = file.split_once('=') {
            shelf.preset(name.as_bytes(), bytes.as_bytes())?;
        }
    }
    Ok(())
}

// Whether the shelf has the files of a cell, and none that has only its name there.
fn has(shelf: &MemShelf, cell: &str) -> bool {
    cell.split(',').all(|file| match file.split_once('=') {
        Some((name, bytes)) => shelf.content(name.as_bytes()) == Some(bytes.as_bytes()),
        None => shelf.content(file.as_bytes()).is_none(),
    })
}

// Makes the call of each row, and looks at what comes of it.
fn plays<R: Threads + Wait + Sync + Abort>(rt: &R, alloc: Global, rows: &str) -> Result<(), Fail> {
    for row in rows.split('#') {
        let text = written_out(alloc, row)?;
        let cells: Vec<&str> = text.as_str().split(';').collect(alloc)?;
        let [words, input, files, fails, output, status, told, after] = cells.as_slice() else {
            panic!(rt; "{row}");
        };
        let words: Vec<&str> = words.split(',').collect(alloc)?;
        let mut around = failing(alloc, input.as_bytes(), 65_536, fails_of(fails))?;
        preset(&mut around.shelf, files)?;
        let came = call(rt, alloc, &words, &mut around, &OpenGate)?;
        assert_eq!(rt; around.output.written(), output.as_bytes(), "{row}");
        assert_eq!(rt; Some(came), status.parse::<u8>().ok(), "{row}");
        assert_eq!(rt; around.diag.written(), told.as_bytes(), "{row}");
        assert!(rt; has(&around.shelf, after), "{row}");
    }
    Ok(())
}

#[test]
fn faults_of_devices_are_told(rt: HostRuntime) -> Result<(), Fail> {
    plays(&rt, rt.alloc(), FAULTS)
}

#[test]
fn each_call_may_fail(rt: HostRuntime) -> Result<(), Fail> {
    plays(&rt, rt.alloc(), TURNS)
}

#[test]
fn each_call_of_sets_may_fail(rt: HostRuntime) -> Result<(), Fail> {
    plays(&rt, rt.alloc(), SETS)
}

#[test]
fn damaged_journals_are_refused(rt: HostRuntime) -> Result<(), Fail> {
    plays(&rt, rt.alloc(), JOURNALS)
}

#[test]
fn limits_are_kept(rt: HostRuntime) -> Result<(), Fail> {
    plays(&rt, rt.alloc(), LIMITS)
}
