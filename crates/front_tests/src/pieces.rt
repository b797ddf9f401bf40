use spec_scanner::{Piece, SpecFault, scan};
use std::alloc::Global;
use std::fmt::Write;
use std::str;
use std::test::Fail;

// A text, and what it reads as: the pieces of each pipeline, or the number and the place of its fault. A piece is shown by its
// kind, its label, its uses, its name and where that begins, its place, its argument and where that begins, and its end.
const CASES: &str = "\
(end ?) console | a: locate /x/ ? a: | b => Stage None 0 console@8 8 []@15 15, Stage Some(0) 0 locate@21 18 [ /x/]@27 31,; Reference Some(0) 1 @34 34 []@36 36, Stage None 0 b@39 39 []@40 40,;
*: x | a: *: | b: c: d => Connector None 0 *:@0 0 [ x]@2 4, Stage Some(0) 0 *:@10 7 []@12 12, Stage Some(1) 0 c:@18 15 [ d]@20 22,;
  A1:   cons  ole   => Stage Some(0) 0 cons@8 2 [  ole]@12 17,;
(escape %) a%:b | %e: f => Stage None 0 a:b@11 11 []@15 15, Stage Some(0) 0 f@22 18 []@23 23,;
a||b | c|||d => Stage None 0 a|b@0 0 []@4 4, Stage None 0 c|@7 7 []@10 10, Stage None 0 d@11 11 []@12 12,;
(SEP ! end ? name x) a!b?c => Stage None 0 a@21 21 []@22 22, Stage None 0 b@23 23 []@24 24,; Stage None 0 c@25 25 []@26 26,;
a: x | a: y => 6 at 7";

#[test]
fn texts_read_as_pieces(rt: HostRuntime) -> Result<(), Fail> {
    let alloc = rt.alloc();
    for case in CASES.split('\n') {
        let (text, expected) = case.split_once(" =>").unwrap_or((case, ""));
        assert_eq!(rt; shown(alloc, text.as_bytes())?.as_str(), expected, "{text}");
    }
    Ok(())
}

// The pieces of each pipeline, or the number and the place of the fault.
fn shown(alloc: Global, text: &[u8]) -> Result<String, Fail> {
    let mut out = String::new(alloc);
    match scan(alloc, text) {
        Ok(scanned) => {
            for pieces in scanned.pipelines() {
                for piece in pieces.as_slice() {
                    show_piece(&mut out, piece)?;
                }
                out.push_str(";")?;
            }
        }
        Err(SpecFault::Refused { number, place }) => write!(out, " {number} at {place}")?,
        Err(SpecFault::NoMemory) => out.push_str("no memory")?,
    }
    Ok(out)
}

fn show_piece(out: &mut String, piece: &Piece) -> Result<(), Fail> {
    let name = str::from_utf8(piece.name.bytes())?;
    let argument = str::from_utf8(piece.arg.bytes())?;
    write!(
        out,
        " {:?} {:?} {} {}@{} {} [{}]@{} {},",
        piece.kind,
        piece.label,
        piece.uses,
        name,
        piece.name_place,
        piece.place,
        argument,
        piece.arg.place(0),
        piece.arg.end()
    )?;
    Ok(())
}
