// The commands of the script: the first word of a line says which it is.
use crate::fields::{self, Setting};
use digits::Zeros;
use script::Words;
use table::{SatBox, Settings};

// Where clients come from: the number in a line is added to 192.168.178.0.
pub(crate) const NETWORK: u32 = 0xC0A8B200;

// The number that the next word is, if it is one.
fn given(words: &mut Words<'_>) -> Option<u32> {
    digits::number(words.word(), Zeros::Allowed, 10, u32::MAX)
}

// The same, or 0.
pub(crate) fn number(words: &mut Words<'_>) -> u32 {
    given(words).unwrap_or(0)
}

// A request in its short form, and when, by whom and with which draw it is sent.
#[derive(PartialEq, Eq, Debug, Drop)]
pub(crate) struct Asking<'a> {
    pub(crate) clock: u32,
    pub(crate) address: u32,
    pub(crate) draw: u32,
    pub(crate) request: &'a [u8],
}

impl<'a> Asking<'a> {
    fn read(words: &mut Words<'a>) -> Self {
        Asking {
            clock: number(words),
            address: NETWORK.wrapping_add(number(words)),
            draw: number(words),
            request: words.0,
        }
    }
}

// A length of a journal that is lent is given only where it is not the box's.
#[derive(PartialEq, Eq, Debug, Drop)]
pub(crate) enum Command<'a> {
    // `box F C`, and the set of sources of each frontend from the first on where it does not reach all four
    Make(Settings),
    // `ask CLOCK CLIENT DRAW` and a request; `lend ANSWER JOURNAL` and an `ask`, which is lent buffers of these lengths
    Ask {
        answer: u32,
        journal: Option<u32>,
        asking: Asking<'a>,
    },
    // `tick CLOCK JOURNAL`
    Tick {
        clock: u32,
        journal: Option<u32>,
    },
    // `collect LENGTH JOURNAL`
    Collect {
        length: u32,
        journal: Option<u32>,
    },
    // `order FRONTEND`
    Order(u32),
    // `set FIELD PLACE VALUE ENTRY`
    Set(Setting<'a>),
    // `spoil`, as `set`, for a look at what the calls say to such a table, and at what they leave of the buffers
    Spoil(Setting<'a>),
    // `table`
    Table,
    // `journal FROM TO`
    Journal {
        from: u32,
        to: u32,
    },
}

impl<'a> Command<'a> {
    // The command on a line; any other line is only shown.
    pub(crate) fn read(line: &'a [u8]) -> Option<Self> {
        let words = &mut Words(line);
        let command = match words.word() {
            b"box" => Command::Make(settings(words)),
            b"ask" => Command::Ask {
                answer: SatBox::ANSWER as u32,
                journal: None,
                asking: Asking::read(words),
            },
            b"lend" => lending(words),
            b"tick" => Command::Tick {
                clock: number(words),
                journal: given(words),
            },
            b"collect" => Command::Collect {
                length: number(words),
                journal: given(words),
            },
            b"order" => Command::Order(number(words)),
            b"set" => Command::Set(Setting::read(words)),
            b"spoil" => Command::Spoil(Setting::read(words)),
            b"table" => Command::Table,
            b"journal" => Command::Journal {
                from: number(words),
                to: number(words),
            },
            _ => return None,
        };
        Some(command)
    }
}

fn settings(words: &mut Words<'_>) -> Settings {
    let frontends = fields::medium(number(words));
    let size = number(words);
    let mut reach = [15; 8];
    for set in &mut reach {
        *set = fields::small(given(words).unwrap_or(15));
    }
    Settings {
        size,
        frontends,
        spare: 0,
        reach,
    }
}

fn lending<'a>(words: &mut Words<'a>) -> Command<'a> {
    let answer = number(words);
    let journal = Some(number(words));
    let _ask = words.word();
    Command::Ask {
        answer,
        journal,
        asking: Asking::read(words),
    }
}
