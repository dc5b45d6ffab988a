// One field of a table set by hand, as no call sets it.
use crate::commands::number;
use script::Words;
use stream::{Stream, Values};
use table::{SatBox, Session, Settings};

// A number as far as a byte reaches.
pub(crate) fn small(v: u32) -> u8 {
    u8::try_from(v).unwrap_or(u8::MAX)
}

pub(crate) fn medium(v: u32) -> u16 {
    u16::try_from(v).unwrap_or(u16::MAX)
}

// The field, the place of the session, the stream or the frontend, the value, and of a PID its place in the list.
#[derive(PartialEq, Eq, Debug, Drop)]
pub(crate) struct Setting<'a> {
    pub(crate) field: &'a [u8],
    pub(crate) place: usize,
    pub(crate) value: u32,
    pub(crate) entry: usize,
}

impl<'a> Setting<'a> {
    pub(crate) fn read(words: &mut Words<'a>) -> Self {
        Setting {
            field: words.word(),
            place: number(words) as usize,
            value: number(words),
            entry: number(words) as usize,
        }
    }
}

impl Setting<'_> {
    // Sets the field. Sessions, streams and the box have no two fields of one name; a name that none has sets nothing.
    pub(crate) fn apply(&self, t: &mut SatBox) {
        if let Some(session) = t.sessions.get_mut(self.place) {
            self.apply_to_session(session);
        }
        if let Some(stream) = t.streams.get_mut(self.place) {
            self.apply_to_stream(stream);
            self.apply_to_values(&mut stream.values);
        }
        self.apply_to_settings(&mut t.settings);
        self.apply_to_box(t);
    }

    fn apply_to_session(&self, s: &mut Session) {
        match self.field {
            b"number" => s.number = self.value,
            b"address" => s.address = self.value,
            b"last" => s.last = self.value,
            b"port" => s.port = self.value,
            b"stream" => s.stream = small(self.value),
            b"owner" => s.owner = small(self.value),
            b"playing" => s.playing = medium(self.value),
            _ => {}
        }
    }

    fn apply_to_stream(&self, m: &mut Stream) {
        match self.field {
            b"count" => m.count = medium(self.value),
            b"frontend" => m.frontend = small(self.value),
            b"all" => m.all = small(self.value),
            b"pids" => {
                if let Some(pid) = m.pids.get_mut(self.entry) {
                    *pid = medium(self.value);
                }
            }
            _ => {}
        }
    }

    fn apply_to_values(&self, values: &mut Values) {
        match self.field {
            b"src" => values.src = self.value,
            b"freq" => values.freq = self.value,
            b"pol" => values.pol = self.value,
            b"msys" => values.msys = self.value,
            b"mtype" => values.mtype = self.value,
            b"plts" => values.plts = self.value,
            b"ro" => values.ro = self.value,
            b"sr" => values.sr = self.value,
            b"fec" => values.fec = self.value,
            _ => {}
        }
    }

    fn apply_to_settings(&self, settings: &mut Settings) {
        match self.field {
            b"size" => settings.size = self.value,
            b"frontends" => settings.frontends = medium(self.value),
            b"reach" => {
                if let Some(set) = settings.reach.get_mut(self.place) {
                    *set = small(self.value);
                }
            }
            _ => {}
        }
    }

    fn apply_to_box(&self, t: &mut SatBox) {
        match self.field {
            b"held" => t.held = self.value,
            b"clock" => t.clock = self.value,
            b"sequence" => t.sequence = medium(self.value),
            _ => {}
        }
    }
}
