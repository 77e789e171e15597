// A line read into a call (docs/TRACE.md, "Lines" and "Calls").
use crate::field::{Fields, ReadError};
use crate::input::LINE;
use crate::{field, opening};
use config::Settings;
use model::Config;
use std::alloc::{AllocError, Global};

#[derive(Clone, Copy)]
pub enum Call<'a> {
    // None where a number does not fit its type.
    Open(Option<Config>),
    ReadNacks {
        places: u64,
        entries: &'a [u8],
    },
    ReadSettings(&'a [u8]),
    WriteSettings {
        places: u64,
        settings: Option<Settings>,
    },
    OfSession(SessionCall<'a>),
}

// A call that needs a session.
#[derive(Clone, Copy)]
pub enum SessionCall<'a> {
    Media {
        now: u64,
        datagram: &'a [u8],
    },
    Burst {
        now: u64,
        places: u64,
        buffer: &'a [u8],
        ends: &'a [u64],
    },
    Repair {
        now: u64,
        datagram: &'a [u8],
    },
    Poll {
        now: u64,
    },
    PollNack {
        now: u64,
    },
    NackWire {
        now: u64,
        places: u64,
    },
    Reading(Reading),
}

// A call that leaves the session as it is.
#[derive(Clone, Copy)]
pub enum Reading {
    TimeoutReceive { now: u64 },
    TimeoutNack { now: u64 },
    RtxStats,
    Highest,
    State,
}

// What a call's HEX and its list of ends are read into, kept from line to line.
#[derive(Drop)]
pub struct Lent {
    pub bytes: Vec<u8>,
    pub ends: Vec<u64>,
}

impl Lent {
    // Room for what the longest line can have.
    pub(crate) fn new(alloc: Global) -> Result<Self, AllocError> {
        Ok(Lent {
            bytes: Vec::with_capacity(alloc, LINE / 2)?,
            ends: Vec::with_capacity(alloc, LINE / 2)?,
        })
    }
}

// An `open` has three numbers more in mode 2 than in any other.
fn open(mut fields: Fields<'_>) -> Result<Option<Config>, ReadError> {
    let settings = fields.numbers::<8>()?;
    let senders = fields.numbers::<5>()?;
    let dynamic = if settings[0] == 2 {
        fields.numbers::<3>()?
    } else {
        [0; 3]
    };
    fields.end()?;
    Ok(opening::config(settings, senders, dynamic))
}

fn burst<'a>(mut fields: Fields<'_>, lent: &'a mut Lent) -> Result<SessionCall<'a>, ReadError> {
    let [now, places] = fields.numbers::<2>()?;
    let buffer = fields.hex(&mut lent.bytes)?;
    let ends = fields.list(&mut lent.ends)?;
    Ok(SessionCall::Burst {
        now,
        places,
        buffer,
        ends,
    })
}

fn read_nacks<'a>(fields: Fields<'_>, bytes: &'a mut Vec<u8>) -> Result<Call<'a>, ReadError> {
    let (places, entries) = fields.with_hex(bytes)?;
    Ok(Call::ReadNacks { places, entries })
}

fn read_settings<'a>(
    mut fields: Fields<'_>,
    bytes: &'a mut Vec<u8>,
) -> Result<Call<'a>, ReadError> {
    let line = fields.hex(bytes)?;
    fields.end()?;
    Ok(Call::ReadSettings(line))
}

fn write_settings<'a>(mut fields: Fields<'_>) -> Result<Call<'a>, ReadError> {
    let places = fields.number()?;
    let settings = fields.numbers::<8>()?;
    let dynamic = fields.only()?;
    let settings = opening::line_settings(settings, dynamic);
    Ok(Call::WriteSettings { places, settings })
}

// A line as its word and the fields behind it.
#[derive(Drop)]
struct Line<'l> {
    word: &'l str,
    fields: Fields<'l>,
}

impl<'l> Line<'l> {
    fn new(line: &'l [u8]) -> Result<Self, ReadError> {
        let (word, fields) = field::split(line);
        let word = str::from_utf8(word).or(Err(ReadError::Unreadable))?;
        Ok(Line { word, fields })
    }

    // A call that brings a datagram.
    fn bringing<'a>(self, bytes: &'a mut Vec<u8>) -> Result<SessionCall<'a>, ReadError> {
        let (now, datagram) = self.fields.with_hex(bytes)?;
        match self.word {
            "media" => Ok(SessionCall::Media { now, datagram }),
            "repair" => Ok(SessionCall::Repair { now, datagram }),
            _ => Err(ReadError::Unreadable),
        }
    }

    // A call that has NOW alone, or NOW and PLACES, or no field.
    fn asking<'a>(self) -> Result<SessionCall<'a>, ReadError> {
        match self.word {
            "poll" => Ok(SessionCall::Poll {
                now: self.fields.now()?,
            }),
            "poll_nack" => Ok(SessionCall::PollNack {
                now: self.fields.now()?,
            }),
            "nack_wire" => {
                let [now, places] = self.fields.only::<2>()?;
                Ok(SessionCall::NackWire { now, places })
            }
            _ => Ok(SessionCall::Reading(self.reading()?)),
        }
    }

    fn reading(self) -> Result<Reading, ReadError> {
        match self.word {
            "timeout_receive" => Ok(Reading::TimeoutReceive {
                now: self.fields.now()?,
            }),
            "timeout_nack" => Ok(Reading::TimeoutNack {
                now: self.fields.now()?,
            }),
            _ => self.bare(),
        }
    }

    fn bare(self) -> Result<Reading, ReadError> {
        self.fields.end()?;
        match self.word {
            "rtx_stats" => Ok(Reading::RtxStats),
            "highest" => Ok(Reading::Highest),
            "state" => Ok(Reading::State),
            _ => Err(ReadError::Unreadable),
        }
    }

    fn of_session<'a>(self, lent: &'a mut Lent) -> Result<SessionCall<'a>, ReadError> {
        match self.word {
            "media" | "repair" => self.bringing(&mut lent.bytes),
            "burst" => burst(self.fields, lent),
            _ => self.asking(),
        }
    }
}

// The call that a line is.
pub(crate) fn read<'a>(line: &[u8], lent: &'a mut Lent) -> Result<Call<'a>, ReadError> {
    let line = Line::new(line)?;
    match line.word {
        "open" => Ok(Call::Open(open(line.fields)?)),
        "read_nacks" => read_nacks(line.fields, &mut lent.bytes),
        "read_settings" => read_settings(line.fields, &mut lent.bytes),
        "write_settings" => write_settings(line.fields),
        _ => Ok(Call::OfSession(line.of_session(lent)?)),
    }
}
