// A box and its journal, to which the commands of a script are played; what comes of each is written.
use crate::commands::{Asking, Command, NETWORK};
use crate::fields::Setting;
use crate::{lent, show};
use script::Lines;
use std::io;
use stream::Stream;
use table::{SatBox, Session, Settings};

// A box of no frontend and no journal, which every call refuses.
const NO_BOX: SatBox = SatBox {
    sessions: [Session::NONE; 32],
    streams: [Stream::NONE; 8],
    settings: Settings::NONE,
    held: 0,
    clock: 0,
    sequence: 0,
    spare: 0,
};

#[derive(Drop)]
pub(crate) struct Player<'a, P> {
    rt: &'a P,
    satbox: SatBox,
    journal: [u8; 65536],
}

impl<'a, P: Print> Player<'a, P> {
    pub(crate) fn new(rt: &'a P) -> Self {
        Player {
            rt,
            satbox: NO_BOX,
            journal: [0; 65536],
        }
    }

    pub(crate) fn play(&mut self, command: Command<'_>) -> io::Result<()> {
        match command {
            Command::Make(settings) => self.make(settings),
            Command::Ask {
                answer,
                journal,
                asking,
            } => self.ask(answer, journal, &asking),
            Command::Tick { clock, journal } => self.tick(clock, journal),
            Command::Collect { length, journal } => self.collect(length, journal),
            Command::Order(frontend) => order(self.rt, " ", &self.satbox, frontend),
            Command::Set(setting) => {
                setting.apply(&mut self.satbox);
                Ok(())
            }
            Command::Spoil(setting) => self.spoil(&setting),
            Command::Table => show::table(self.rt, &self.satbox),
            Command::Journal { from, to } => self.show_records(from, to),
        }
    }

    fn make(&mut self, settings: Settings) -> io::Result<()> {
        let made = SatBox::fresh(settings);
        self.satbox = made.unwrap_or(NO_BOX);
        self.journal.fill(lent::UNWRITTEN);
        show::outcome(self.rt, " ", made)?;
        show::state(self.rt, &self.satbox)
    }

    // Sends a request, if it is not too long.
    fn ask(&mut self, answer: u32, journal: Option<u32>, asking: &Asking<'_>) -> io::Result<()> {
        let mut request = [0u8; 4096];
        let n = script::unfold(&mut request, asking.request);
        match request.get(..n) {
            Some(request) => self.send(answer, journal, asking, request),
            None => println!(self.rt; "  too long"),
        }
    }

    fn send(
        &mut self,
        answer: u32,
        journal: Option<u32>,
        asking: &Asking<'_>,
        request: &[u8],
    ) -> io::Result<()> {
        let t = self.satbox;
        let mut buffer = [lent::UNUSED; 8192];
        let answer = lent::front(&mut buffer, answer);
        let journal = lent::front(&mut self.journal, journal.unwrap_or(t.settings.size));
        let replied = satbox::request(
            t,
            request,
            asking.clock,
            asking.address,
            asking.draw,
            answer,
            journal,
        );
        self.satbox = replied.satbox;
        let count = replied.outcome.unwrap_or(0);
        show_answer(self.rt, lent::front(answer, count))?;
        show::outcome(self.rt, " ", replied.outcome)?;
        lent::show(self.rt, answer, count)?;
        show::state(self.rt, &self.satbox)?;
        self.show_records(t.held, self.satbox.held)
    }

    fn tick(&mut self, clock: u32, journal: Option<u32>) -> io::Result<()> {
        let t = self.satbox;
        let journal = lent::front(&mut self.journal, journal.unwrap_or(t.settings.size));
        let ticked = satbox::tick(t, clock, journal);
        self.satbox = ticked.satbox;
        show::outcome(self.rt, " ", ticked.outcome)?;
        show::state(self.rt, &self.satbox)?;
        self.show_records(t.held, self.satbox.held)
    }

    fn collect(&mut self, length: u32, journal: Option<u32>) -> io::Result<()> {
        let t = self.satbox;
        let mut buffer = [lent::UNUSED; 65536];
        let buffer = lent::front(&mut buffer, length);
        let journal = lent::front(&mut self.journal, journal.unwrap_or(t.settings.size));
        let collected = satbox::collect(t, journal, buffer);
        self.satbox = collected.satbox;
        let count = collected.outcome.unwrap_or(0);
        show::outcome(self.rt, " ", collected.outcome)?;
        lent::show(self.rt, buffer, count)?;
        show::state(self.rt, &self.satbox)?;
        show::records(self.rt, lent::front(buffer, count))
    }

    // The records that the journal holds between two places.
    fn show_records(&self, from: u32, to: u32) -> io::Result<()> {
        match self.journal.get(from as usize..to as usize) {
            Some(records) => show::records(self.rt, records),
            None => Ok(()),
        }
    }

    // What the calls say to a table with a field set, which is then thrown away.
    fn spoil(&mut self, setting: &Setting<'_>) -> io::Result<()> {
        let rt = self.rt;
        let mut spoilt = self.satbox;
        setting.apply(&mut spoilt);
        let journal = lent::front(&mut self.journal, self.satbox.settings.size);
        attempt_request(rt, &spoilt, journal)?;
        attempt_tick(rt, &spoilt, journal)?;
        attempt_collect(rt, &spoilt, journal)?;
        let stayed = lent::count_of(journal, lent::UNWRITTEN);
        print!(rt; ", journal stayed {stayed}")?;
        order(rt, ", order", &spoilt, 1)
    }
}

// An answer on a line of its own, with `|` for the CR LF that ends each of its lines; `?` where none does.
fn show_answer(rt: &impl Print, answer: &[u8]) -> io::Result<()> {
    if answer.is_empty() {
        return Ok(());
    }
    print!(rt; "  ")?;
    for line in Lines(answer) {
        match line.strip_suffix(b"\r") {
            Some(text) => {
                rt.write_all(text)?;
                print!(rt; "|")?;
            }
            None => {
                rt.write_all(line)?;
                print!(rt; "?")?;
            }
        }
    }
    println!(rt; "")
}

fn order(rt: &impl Print, label: &str, t: &SatBox, frontend: u32) -> io::Result<()> {
    match orders::frontend_order(t, frontend) {
        Ok(Some(stream)) => {
            print!(rt; "{label} on")?;
            show::stream(rt, &stream)?;
        }
        Ok(None) => print!(rt; "{label} off")?,
        Err(why) => {
            let number = table::number(why);
            print!(rt; "{label} refused {number}")?;
        }
    }
    println!(rt; "")
}

// An OPTIONS to whatever table.
fn attempt_request(rt: &impl Print, t: &SatBox, journal: &mut [u8]) -> io::Result<()> {
    let mut answer = [lent::UNUSED; 4096];
    let replied = satbox::request(
        *t,
        b"OPTIONS rtsp://h/ RTSP/1.0\r\nCSeq: 1\r\n\r\n",
        0,
        NETWORK,
        1,
        &mut answer,
        journal,
    );
    show::outcome(rt, "  request", replied.outcome)?;
    lent::show(rt, &answer, replied.outcome.unwrap_or(0))
}

fn attempt_tick(rt: &impl Print, t: &SatBox, journal: &mut [u8]) -> io::Result<()> {
    let ticked = satbox::tick(*t, 0, journal);
    show::outcome(rt, ", tick", ticked.outcome)
}

fn attempt_collect(rt: &impl Print, t: &SatBox, journal: &[u8]) -> io::Result<()> {
    let mut buffer = [lent::UNUSED; 65536];
    let collected = satbox::collect(*t, journal, &mut buffer);
    show::outcome(rt, ", collect", collected.outcome)?;
    lent::show(rt, &buffer, collected.outcome.unwrap_or(0))
}
