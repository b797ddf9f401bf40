use pipe_model::{Kind, name_of};
use stage_syntax::{Arg, KindFault, kind_of};
use std::alloc::Global;
use std::mem;
use std::test::Fail;

// A name, an argument, and the name of the kind, or a fault's number and place. The first byte of the argument is at place 10,
// each further byte two places on, and the stage's text ends before place 1000.
const CASES: &str = "\
Console|  |console
<| in.txt |<
>| out|>
literal| two words|literal
hole|  |hole
locate| word 2 /a/|locate
NLocate| 2.3 x4A|nlocate
find| ab|find
nfind| ab|nfind
take| last *|take
drop| First 3|drop
between| /a/ /b/|between
inside| /a/ /b/|inside
tolabel| ab|tolabel
frlabel| ab|frlabel
change| 2.3 /a/b/ 1|change
strip| BOTH /x/|strip
chop| 5|chop
pad| left 5 /x/|pad
split| /,/|split
join| * //|join
xlate| /ab/ x4142|xlate
reverse||reverse
duplicate| 2|duplicate
unique| count w2 last|unique
sort| 1.2 d w3|sort
count| words Bytes|count
lookup| 2.3 w1|lookup
collate| 1 f2-*|collate
merge| f 2|merge
fanout||fanout
fanin||fanin
faninany||faninany
deal||deal
gather||gather
overlay| x41|overlay
synchronise||synchronise
Synchronize|  |synchronise
juxtapose||juxtapose
gate||gate
dam||dam
elastic||elastic
buffer||buffer
copy||copy
fblock| 80 /x/|fblock
block| 80 string /x/|block
deblock| fixed 10|deblock
specs| set #0 += num 1-* print #0 1 eof print #0 strip c2x 5.3 right|specs
locat| /a/|unknown
locate| word|1 at 1000
copy|  /|2 at 14
take| x|3 at 12
chop| 1048577|4 at 12
locate| 5 /a|5 at 16
split| //|6 at 12
specs| 1 1 left left|7 at 30
overlay| x4|8 at 12
locate| w5-3|9 at 18";

#[test]
fn names_and_arguments_have_their_kinds(rt: HostRuntime) -> Result<(), Fail> {
    let alloc = rt.alloc();
    for case in CASES.split('\n') {
        let mut cells = case.split('|');
        let name = cells.next().unwrap_or("");
        let text = cells.next().unwrap_or("");
        let expected = cells.next().unwrap_or("");
        let arg = spaced(alloc, text.as_bytes())?;
        let read = named(kind_of(alloc, name.as_bytes(), &arg, false));
        let shown = shown(alloc, read)?;
        assert_eq!(rt; shown.as_str(), expected, "{case}");
    }
    Ok(())
}

// The argument of these bytes, each plain and two places after the one before it.
fn spaced(alloc: Global, bytes: &[u8]) -> Result<Arg, Fail> {
    let mut plain = Vec::new(alloc);
    let mut places = Vec::new(alloc);
    let mut place: u32 = 10;
    for _ in bytes {
        plain.push(true)?;
        places.push(place)?;
        place = place.wrapping_add(2);
    }
    Ok(Arg::from_parts(Vec::from_slice(alloc, bytes)?, plain, places, 1000))
}

// The name of a kind. The kind isn't let go, since there is much to prove of that.
fn named(read: Result<Kind, KindFault>) -> Result<&'static str, KindFault> {
    match read {
        Ok(kind) => {
            let name = name_of(&kind);
            mem::forget(kind);
            Ok(name)
        }
        Err(fault) => Err(fault),
    }
}

// A name or a fault, as a case shows it.
fn shown(alloc: Global, read: Result<&str, KindFault>) -> Result<String, Fail> {
    match read {
        Ok(name) => Ok(String::from_str(alloc, name)?),
        Err(KindFault::Unknown) => Ok(String::from_str(alloc, "unknown")?),
        Err(KindFault::Argument(fault)) => {
            let number = fault.kind.number();
            let place = fault.place;
            Ok(format!(in alloc; "{number} at {place}")?)
        }
        Err(KindFault::NoMemory) => Ok(String::from_str(alloc, "no memory")?),
    }
}
