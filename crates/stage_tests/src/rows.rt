use crate::played::{Scene, kind_by, play_all, stages_of};
use std::alloc::Global;
use std::process::Abort;
use std::test::Fail;

// Each row has a stage, its inputs, its outputs, the records that come to it, and what it does. An input or output is `-` where
// it isn't connected, else `*`, or a digit where the output takes only so many records. The records, and what is done, are
// written as `Scene` says.
fn plays(rt: &impl Abort, alloc: Global, rows: &str) -> Result<(), Fail> {
    for row in rows.split('\n') {
        let mut cells = row.split('|');
        let words = cells.next().unwrap_or("");
        let inputs = cells.next().unwrap_or("");
        let outputs = cells.next().unwrap_or("");
        let arrivals = cells.next().unwrap_or("");
        let wanted = cells.next().unwrap_or("");
        let mut stages = stages_of(rt, alloc, kind_by(alloc, words)?, 0, inputs, outputs)?;
        let mut scene = Scene::new(alloc, arrivals, outputs)?;
        play_all(alloc, &mut stages, &mut scene)?;
        assert_eq!(rt; scene.done(), wanted.as_bytes(), "{row}");
    }
    Ok(())
}

const DEVICES: &str = "\
literal fruit:|*|*|0apple;0pear;|0fruit:;0apple;-0;0pear;-0;=0\n\
literal   two |*|*||0  two ;=0\n\
literal|*|*|0;|0;0;-0;=0\n\
literal a|*|0|0x;|!0;=0\n\
hole|*|*|0one;0;|-0;-0;=0\n\
console|*|*|0one;0;|0one;-0;0;-0;#one~~=0\n\
console|*|1|0a;0b;|0a;-0;!0;-0;#a~b~=0\n\
> out|*|-|0ab;0;|-0;-0;#ab~~=0";

const SELECTION: &str = "\
locate /pear/|*|**|0pear;0Pear;0;0spear;|0pear;-0;1Pear;-0;1;-0;0spear;-0;=0\n\
locate /pear/|*|*|0pear;0Pear;|0pear;-0;-0;=0\n\
locate , pear,|*|**|0a pear;0apear;|0a pear;-0;1apear;-0;=0\n\
locate x50|*|*|0pear;0Pear;|-0;0Pear;-0;=0\n\
locate /a/|*|**||=0\n\
locate 1-3 /red/|*|**|0red apple;0a red;|0red apple;-0;1a red;-0;=0\n\
locate w2 /pear/|*|**|0green pear;0pear green;|0green pear;-0;1pear green;-0;=0\n\
locate f2 /x/|*|**|0a\tx;0x\tb;|0a\tx;-0;1x\tb;-0;=0\n\
locate 2|*|**|0ab;0a;0;|0ab;-0;1a;-0;1;-0;=0\n\
locate 2.3 /bc/|*|**|0abcd;0abxbc;|0abcd;-0;1abxbc;-0;=0\n\
nlocate /apple/|*|**|0apple;0pear;|1apple;-0;0pear;-0;=0\n\
nlocate w2|*|**|0one;0one two;|0one;-0;1one two;-0;=0\n\
find a_1|*|**|0a 1;0ab1;0a;|0a 1;-0;1ab1;-0;1a;-0;=0\n\
find a 1|*|**|0ab1x;0a-2;0A 1;|0ab1x;-0;1a-2;-0;1A 1;-0;=0\n\
nfind a_1|*|**|0a 1;0ab1;0;|1a 1;-0;0ab1;-0;0;-0;=0\n\
take 2|*|**|0one;0two;0three;|0one;-0;0two;-0;1three;-0;=0\n\
take 2|*|*|0one;0two;0three;|0one;-0;0two;-0;=0\n\
take 0|*|*|0a;|=0\n\
take|*|0*|0a;0b;|!0;-0;1b;-0;=0\n\
take *|*|*|0a;0b;|0a;-0;0b;-0;=0\n\
take last 2|*|**|0one;0two;0three;|-0;-0;-0;1one;0two;0three;=0\n\
take last *|*|*|0a;0b;|-0;-0;0a;0b;=0\n\
take last 1|*|*||=0\n\
drop 1|*|**|0one;0two;|1one;-0;0two;-0;=0\n\
drop *|*|**|0a;|1a;-0;=0\n\
drop last|*|**|0one;0two;|-0;-0;0one;1two;=0\n\
drop last 0|*|*|0a;|-0;0a;=0\n\
between /</ />/|*|**|0intro;0<b;0in;0<b;0>e;0out;0<b;|1intro;-0;0<b;-0;0in;-0;0<b;-0;0>e;-0;1out;-0;0<b;-0;=0\n\
between /--/ /--/|*|**|0--;0y;0--;0z;|0--;-0;0y;-0;0--;-0;1z;-0;=0\n\
inside /</ />/|*|**|0intro;0<b;0in;0>e;0<b;|1intro;-0;1<b;-0;0in;-0;1>e;-0;1<b;-0;=0\n\
tolabel --|*|**|0to;0--body;0to;|0to;-0;1--body;-0;1to;-0;=0\n\
tolabel --|*|*|0to;0--body;0to;|0to;-0;=0\n\
frlabel --|*|**|0to;0--body;0to;|1to;-0;0--body;-0;0to;-0;=0\n\
frlabel a b|*|*|0a;0a b;|-0;0a b;-0;=0";

const EDITING: &str = "\
change /aa/x/ 1|*|*|0banana;0aaaaa;|0banana;-0;0xaaa;-0;=0\n\
change /an//|*|*|0banana;0an;|0ba;-0;0;-0;=0\n\
change 1-3 /an/-/|*|*|0banana;|0b-ana;-0;=0\n\
change 5 //+/|*|*|0apple;0fig;|0appl+e;-0;0fig;-0;=0\n\
change x09 / / *|*|*|0a\tb\tc;0;|0a b c;-0;0;-0;=0\n\
chop 4|*|**|0red apple;0pear;|0red ;1apple;-0;0pear;1;-0;=0\n\
chop 0|*|-*|0ab;|1ab;-0;=0\n\
duplicate|*|*|0a;0;|0a;0a;-0;0;0;-0;=0\n\
duplicate 0|*|*|0a;|0a;-0;=0\n\
duplicate *|*|2|0a;0b;|0a;0a;!0;=0\n\
duplicate *|*|-|0a;|-0;=0\n\
join|*|*|0a;0b;0c;|-0;-0;0ab;-0;0c;=0\n\
join 2 /, /|*|*|0a;0b;0c;|-0;-0;-0;0a, b, c;=0\n\
join * /-/|*|*|0a;0;0c;|-0;-0;-0;0a--c;=0\n\
join|*|*||=0\n\
pad left 3 /0/|*|*|07;0042;01234;|0007;-0;0042;-0;01234;-0;=0\n\
pad 3 /./|*|*|07;0;|07..;-0;0...;-0;=0\n\
reverse|*|*|0stressed;0;0lever 1;|0desserts;-0;0;-0;01 revel;-0;=0\n\
split|*|*|0 two  words ;0;0one;|0two;0words;-0;-0;0one;-0;=0\n\
split /,:/|*|*|0a,b::c;|0a;0b;0c;-0;=0\n\
strip|*|*|0  two words ;0  ;|0two words;-0;0;-0;=0\n\
strip trailing /, /|*|*|0\"quoted\", ;|0\"quoted\";-0;=0\n\
strip leading /0/|*|*|0007;0000;|07;-0;0;-0;=0\n\
xlate|*|*|0Red Apple 1;|0RED APPLE 1;-0;=0\n\
xlate lower|*|*|0Red Apple 1;|0red apple 1;-0;=0\n\
xlate /e1e/ /32-/|*|*|0Red 1;|0R3d 2;-0;=0";

const ORDER: &str = "\
count lines|*|*|0one two;0;0three;|-0;-0;-0;03;=0\n\
count words bytes|*|*|0one two;0;0three;|-0;-0;-0;03 12;=0\n\
count lines words|*|*||00 0;=0\n\
sort|*|*|0b;0ab;0;0a;|-0;-0;-0;-0;0;0a;0ab;0b;=0\n\
sort 1-* d|*|*|0ann;0cid;0bob;|-0;-0;-0;0cid;0bob;0ann;=0\n\
sort word 2 d 1.1|*|*|0ann 7;0bob 12;0cid 7;|-0;-0;-0;0ann 7;0cid 7;0bob 12;=0\n\
sort|*|*||=0\n\
unique 1|*|**|0a1;0a2;0b1;0a3;|-0;-0;1a1;-0;0a2;-0;0b1;0a3;=0\n\
unique 1 first|*|**|0a1;0a2;0b1;0a3;|0a1;-0;1a2;-0;0b1;-0;0a3;-0;=0\n\
unique count 1|*|**|0a1;0a2;0b1;|-0;-0;1a1;-0;0         2a2;0         1b1;=0\n\
unique singles|*|**|0a;0a;0b;|-0;-0;1a;-0;1a;0b;=0\n\
unique multiple|*|*|0a;0a;0b;|-0;-0;0a;-0;0a;=0\n\
unique|*|**||=0";

const BLOCKS: &str = "\
block 4 fixed|*|*|0abc;0de;0f;|-0;-0;0abcd;-0;0ef;=0\n\
block 6 string /, /|*|*|0abc;0de;0f;|-0;-0;0abc, d;-0;0e, f, ;=0\n\
block 9 linend|*|*|0ab;0;|-0;-0;0ab~~;=0\n\
block 100 sf|*|*|0abc;0;|-0;-0;0\0\x05abc\0\x02;=0\n\
block 4 fixed|*|*|0abcd;|-0;0abcd;=0\n\
deblock string /,/|*|*|0ab,c,,d;0e,f;|-0;0ab;0c;0;-0;0de;0f;=0\n\
deblock fixed 2|*|*|0abcde;|-0;0ab;0cd;0e;=0\n\
deblock linend|*|*|0a~b;0c~;|-0;0a;-0;0bc;=0\n\
deblock sf|*|*|0\0\x03a\0\x06b;|-0;0a;=8\n\
deblock sf|*|*|0\0\x05a;0bc\0\x02;|-0;-0;0abc;0;=0\n\
deblock sf|*|*|0\0\x03a\0\x01;|-0;0a;=8\n\
fblock 4|*|*|0abc;0de;|-0;-0;0abcd;0e;=0\n\
fblock 4 x2E|*|*|0abc;0de;|-0;-0;0abcd;0e...;=0\n\
fblock 4 /./|*|*||=0";

const SPECS: &str = "\
specs word 2 1|*|*|0ann smith 42;0one;|0smith;-0;0;-0;=0\n\
specs word 4 1 word 1 10|*|*|0ann smith 42 berlin;|0berlin   ann;-0;=0\n\
specs 1-* 1 /XY/ 2|*|*|0ann smith;|0aXY smith;-0;=0\n\
specs word 2 1 /,/ next word 1 nextword|*|*|0ann smith;|0smith, ann;-0;=0\n\
specs word 1 1.6 word 3 next.5 right word 4 next.10 center /./ next|*|*|0ann smith 42 berlin;|0ann      42  berlin  .;-0;=0\n\
specs number 1.3 right word 1 nextword|*|*|0ann smith;0bob;|0  1 ann;-0;0  2 bob;-0;=0\n\
specs word 1 c2x 1|*|*|0ann;|0616E6E;-0;=0\n\
specs 1-* x2c 1|*|*|0616e6e;0626F62;|0ann;-0;0bob;-0;=0\n\
specs word 2 1 write word 4 3|*|*|0ann smith 42 berlin;|0smith;0  berlin;-0;=0\n\
specs 1-* 1 read 1-* 6|*|*|0ann;0berlin;0cid;|-0;-0;0ann  berlin;-0;0cid;=0\n\
specs pad /0/ word 2 1.5 right pad / / word 1 nextword|*|*|0ann 42;|000042 ann;-0;=0\n\
specs set #0 += num 1-* print #0 1|*|*|05;0five;06;|05;-0;=8\n\
specs set #0 += num word 3 eof print #0 1|*|*|0ann smith 42;0bob jones 7;|-0;-0;049;=0\n\
specs 1-* 1 eof set #0 = 9223372036854775807 set #0 += 1 print #0 1|*|*|05;|05;-0;=8\n\
specs 1-* 1 eof /end/ 1|*|*||0end;=0";

const GATES: &str = "\
gate|***|***|1one;2two;0END;1three;|1one;-1;2two;-2;=0\n\
gate|**|**|1one;|1one;-1;=0\n\
dam|*|*|0a;0b;|0a;-0;0b;-0;=0\n\
buffer|*|*|0one;0;|-0;-0;0one;0;=0\n\
buffer|*|*||=0\n\
copy|*|*|0one;0;|-0;0one;-0;0;=0\n\
elastic|*|*|0one;0two;|-0;0one;-0;0two;=0";

const FANS: &str = "\
fanout|*|***|0one;0two;|0one;1one;2one;-0;0two;1two;2two;-0;=0\n\
fanout|*|1*|0one;0two;|0one;1one;-0;!0;1two;-0;=0\n\
fanout|*|01|0one;0two;|!0;1one;-0;!1;=0\n\
deal|*|*-*|0one;0two;0three;|0one;-0;2two;-0;0three;-0;=0\n\
deal|*|1*|01;02;03;04;|01;-0;12;-0;!0;-0;14;-0;=0\n\
fanin|**|*|1behind it;0one;0;|0one;-0;0;-0;0behind it;-1;=0\n\
fanin|**|1|0a;0b;1c;|0a;-0;!0;=0\n\
faninany|**|*|1y;0x;1z;|0y;-1;0x;-0;0z;-1;=0\n\
gather|***|*|0one;2and;0two;0three;|0one;-0;0and;-2;0two;-0;0three;-0;=0\n\
overlay /-/|**|*|0a-c;0-b-d;1--x;|0a-x;-0;-1;0-b-d;-0;=0\n\
overlay|**|*|0abc;1 x;|0axc;-0;-1;=0\n\
synchronise|**|**|0one;0two;0three;1a;1b;|0one;1a;-0;-1;0two;1b;-0;-1;=0\n\
synchronise|**|*-|0one;1a;|0one;-0;-1;=0\n\
juxtapose|**|*|1x;0fruit: ;1apple;1pear;0trees: ;1ash;|0x;-1;-0;0fruit: apple;-1;0fruit: pear;-1;-0;0trees: ash;-1;=0";

const JOINS: &str = "\
lookup word 1|**|***|1ann Oslo;1bob Bern;1ann Rome;0ann 7;0cid 9;|-1;-1;-1;0ann 7;0ann Oslo;-0;1cid 9;-0;2bob Bern;=0\n\
lookup w2 w1|**|*-*|1ann Oslo;1dan Rome;07 ann;|-1;-1;07 ann;0ann Oslo;-0;2dan Rome;=0\n\
lookup|**|***|0a;|1a;-0;=0\n\
collate word 1|**|***|0ann Oslo;0bob Bern;1ann 7;1ann 1;1cid 9;|0ann Oslo;0ann 7;-1;0ann 1;-1;-0;1bob Bern;-0;2cid 9;-1;=0\n\
collate w1 w2|**|*--|0ann Oslo;17 ann;|0ann Oslo;07 ann;-1;-0;=0\n\
collate|**|***|1a;|2a;-1;=0\n\
merge word 1|***|*|0ann 7;0cid 9;1ann 2;1bob 5;2dan 3;|0ann 7;-0;0ann 2;-1;0bob 5;-1;0cid 9;-0;0dan 3;-2;=0\n\
merge|**|1|0a;1b;|0a;-0;!0;=0";

#[test]
fn stages_do_what_their_rows_say(rt: HostRuntime) -> Result<(), Fail> {
    let alloc = rt.alloc();
    plays(&rt, alloc, DEVICES)?;
    plays(&rt, alloc, SELECTION)?;
    plays(&rt, alloc, EDITING)?;
    plays(&rt, alloc, ORDER)?;
    plays(&rt, alloc, BLOCKS)?;
    plays(&rt, alloc, SPECS)?;
    plays(&rt, alloc, GATES)?;
    plays(&rt, alloc, FANS)?;
    plays(&rt, alloc, JOINS)?;
    Ok(())
}
