// The answers from a place on.
ghost use Rattle.std.specs.Prelude.{◌≡◌, ◌+◌, ◌*◌, ◌-◌, length};
ghost use Rattle.panel.specs.Reports.{answers_from};

use command::Seq;

// The caller's own answers from a sequence number on; none for 0 and past the end. `own`: what is handed back is the end of the list that
// was lent, in its place in memory, two bytes an answer.
pub fn answers_from<'a>(answers: &'a [u16], from: Seq) -> &'a [u16]
    ensures answers { result.now ≡ answers_from from.0 answers.now }
    ensures own { (result.ref_ptr.0 ≡ answers.entry.ref_ptr.0) × (result.ref_ptr.1 ≡ answers.entry.ref_ptr.1 + 2 * (length answers.now - length result.now)) }
{
    let n = answers.len();
    let place = from.0;
    if place == 0 {
        return &answers[n..]; // no command has place 0
    }
    if place > n {
        return &answers[n..];
    }
    &answers[place - 1..]
}
