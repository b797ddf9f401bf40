ghost use Rattle.std.specs.Prelude.{◌≡◌, length};
ghost use Rattle.pipe_model.specs.Ranges.{words_from};

// How many words a record has: how many bytes other than a blank stand behind a blank or at the front.
#[inline(never)]
pub(crate) fn word_count(rec: &[u8]) -> usize
    ensures { result ≡ length (words_from 0 rec.now) }
{
    let mut count = 0;
    let mut is_between = true;
    for byte in rec {
        let is_blank = *byte == b' ';
        if is_between && !is_blank {
            count += 1;
        }
        is_between = is_blank;
    }
    count
}
