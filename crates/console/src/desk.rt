// What the console holds between records, and what it answers them.
ghost use Rattle.std.specs.Prelude.{◌≡◌, IfOk};
ghost use Rattle.text.specs.InPlace.{text_sheet};
ghost use Rattle.round.specs.Sound.{round_sheet};
ghost use Rattle.console.specs.Records.{opening, asking};
ghost use Rattle.console.specs.Replies.{reply_of};
ghost use Rattle.console.specs.Session.{State, Step, at_first, kept, verdict_reply};
ghost use Rattle.console.specs.Taking.{meaning};

use crate::lines::{Answer, Reply};
use crate::records::Record;
use horn::joined::Joined;
use round::Round;
use std::alloc::{AllocError, Global};
use std::marker::Model;
use text::TextSheet;

// The sheets of the last accepted network and show text, and the round.
#[derive(Drop)]
pub(crate) struct Desk<'a> {
    network: TextSheet<'a>,
    show: TextSheet<'a>,
    round: Round,
}

// It is seen as the three sheets.
impl<'a> Model for Desk<'a> {
    ghost Value = { State };

    ghost view = { λ d. record { of_network = text_sheet d.network; of_show = text_sheet d.show; of_round = round_sheet d.round } };
}

// An accepted sheet takes the place of the one held.
fn hold<'a>(sheet: TextSheet<'a>, held: &mut TextSheet<'a>) -> Reply
    ensures reply { reply_of result ≡ verdict_reply sheet.entry.verdict }
    ensures holds { text_sheet held.new ≡ kept sheet.entry.verdict (text_sheet sheet.entry) (text_sheet held.old) }
{
    let counts = sheet.verdict()?;
    *held = sheet;
    Ok(Answer::Sheet(counts))
}

impl<'a> Desk<'a> {
    // A desk without clauses.
    pub(crate) fn new(heap: Global) -> Result<Desk<'a>, AllocError>
        ensures { IfOk result (λ d. d ≡ at_first) }
    {
        let network = TextSheet::new(heap, b"")?;
        let show = TextSheet::new(heap, b"")?;
        let round = Round::new(heap)?;
        Ok(Desk {
            network,
            show,
            round,
        })
    }

    // Answers a record.
    pub(crate) fn answer(&mut self, heap: Global, taken: Record<'a>) -> Result<Reply, AllocError>
        ensures { IfOk result (λ r. Step self.old (meaning taken.entry) (reply_of r) self.new) }
    {
        Ok(match taken {
            Record::Network(text) => hold(TextSheet::new(heap, text)?, &mut self.network),
            Record::Show(text) => hold(TextSheet::new(heap, text)?, &mut self.show),
            Record::Opening => self.open(),
            Record::Asking(p) => self.ask(p),
        })
    }

    // Opens the round on the two sheets joined, the network's first.
    fn open(&mut self) -> Reply
        ensures { Step self.old opening (reply_of result) self.new }
    {
        let both = Joined {
            first: &self.network,
            second: &self.show,
        };
        Ok(Answer::Opening(self.round.open(&both)?))
    }

    // Asks the round for condition p.
    fn ask(&self, p: u16) -> Reply
        ensures { Step self.now (asking p) (reply_of result) self.now }
    {
        Ok(Answer::Asking(self.round.ask(p)?))
    }
}
