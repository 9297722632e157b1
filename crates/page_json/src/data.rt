//! The data of a page as one object.

use crate::commands::{CommandLine, put_commands};
use crate::json::{Item, Json};
use crate::lists::{put_fields, put_lanes, put_modes, put_tables};
use crate::requests::put_sent;
use crate::rules::put_texts;
use crate::samples::{LaneSamples, put_sampling};
use bounded_history::Changes;
use lc_model::VERSION;
use run_summary::{Account, Figures};
use sha2::{Digest, Sha256};
use std::fmt::{self, Display, Formatter, Write};

/// A file with the name that a page shows for it.
#[derive(Clone, Copy)]
pub struct Source<'n, 't> {
    /// The name.
    pub name: &'n str,
    /// The file's bytes.
    pub text: &'t [u8],
}

/// The names and files of a run that a page shows.
#[derive(Clone, Copy)]
pub struct Run<'n, 't> {
    /// The schedule.
    pub plan: Source<'n, 't>,
    /// The name of the stream.
    pub stream: &'n str,
    /// The rule texts, by number from 0.
    pub texts: &'t [Source<'n, 't>],
    /// The instant of second 0 in the form of RFC 3339, if it is given.
    pub epoch: Option<&'n str>,
}

/// How a run ended. Records count from 1.
#[derive(Clone, Copy)]
pub enum Ended {
    /// After this number of whole records.
    Whole(u64),
    /// At this record, whose bytes aren't a record.
    NoRecord(u64),
    /// Inside this record, which is cut short.
    Cut(u64),
    /// After the greatest number of reads.
    Bound,
}

/// The part of a run that a page shows. Times are in 1/65,536 s since second 0.
#[derive(Clone, Copy)]
pub struct Window {
    /// The time from which on records are shown, if it is given.
    pub from: Option<u64>,
    /// The time before which records are shown, if it is given.
    pub until: Option<u64>,
    /// The number of records before the page's first.
    pub records: u64,
    /// The number of packets that the run wrote before them.
    pub packets: u64,
}

/// All data of a page.
#[derive(Drop)]
pub struct Data<'a, 'n, 't, 's, A: Display> {
    /// The names and files of the run.
    pub run: &'a Run<'n, 't>,
    /// The length of the stream in bytes.
    pub bytes: u64,
    /// The SHA-256 of the stream.
    pub digest: [u8; 32],
    /// How the run ended.
    pub ended: Ended,
    /// The part of the run that the page shows; `None` if it shows all of it.
    pub window: Option<Window>,
    /// The time of the page's first record, in 1/65,536 s.
    pub start: u64,
    /// `start` less the time of the run's first record, from which all times of the account and the lists are counted.
    pub shift: i64,
    /// The time of the last record less that of the run's first.
    pub end: i64,
    /// Whether no record is earlier than the one before it.
    pub is_ordered: bool,
    /// The account of the run.
    pub account: &'a Account<'s>,
    /// What the whole run looked at, as an object of JSON.
    pub looked_at: &'a A,
    /// The number of records in which a rule was sampled.
    pub samples: u64,
    /// The samples of the rules of each lane.
    pub sampling: &'a [LaneSamples],
    /// The changes of each rule.
    pub lanes: &'a [Changes],
    /// The changes of each field.
    pub values: &'a [Changes],
    /// The commands that are kept, in words.
    pub commands: &'a [CommandLine],
}

const WHOLE: &[&str] = &["{\"status\":0,\"says\":\"", " records\",\"whole\":true}"];

const NO_RECORD: &[&str] = &[
    "{\"status\":4,\"says\":\"record ",
    " of the stream is none, or names a rule text that is not given\",\"whole\":false}",
];

const CUT: &[&str] = &[
    "{\"status\":4,\"says\":\"the stream ends inside record ",
    "\",\"whole\":false}",
];

const BOUND: &[&str] = &[
    "{\"status\":4,\"says\":\"as many reads were made as may be\",\"whole\":false}",
];

fn put_ended<W: Write>(json: &mut Json<'_, W>, ended: Ended) {
    match ended {
        Ended::Whole(records) => json.row(WHOLE, &[Item::Natural(records)]),
        Ended::NoRecord(number) => json.row(NO_RECORD, &[Item::Natural(number)]),
        Ended::Cut(number) => json.row(CUT, &[Item::Natural(number)]),
        Ended::Bound => json.row(BOUND, &[]),
    }
}

const FILE: &[&str] = &[
    "{\"role\":\"",
    "\",\"name\":\"",
    "\",\"bytes\":",
    ",\"sha256\":\"",
    "\"}",
];

/// A file that the page names.
fn put_file<'x, W: Write>(
    json: &mut Json<'_, W>,
    role: &'static str,
    name: &'x str,
    bytes: u64,
    digest: &'x [u8],
) {
    let items = [
        Item::Word(role),
        Item::Text(name.as_bytes()),
        Item::Natural(bytes),
        Item::Digest(digest),
    ];
    json.member(FILE, &items)
}

/// A file with its bytes.
fn put_source<W: Write>(json: &mut Json<'_, W>, role: &'static str, file: &Source<'_, '_>) {
    let digest = Sha256::digest(file.text);
    put_file(json, role, file.name, file.text.len() as u64, &digest)
}

/// All files of the page except the stream.
fn put_sources<W: Write>(json: &mut Json<'_, W>, run: &Run<'_, '_>) {
    for source in run.texts {
        put_source(json, "rules", source);
    }
    put_source(json, "schedule", &run.plan)
}

const PROGRAM: &[&str] = &["{\"format\":3,\"program\":\"flight_tools ", "\",\"ended\":"];

const WINDOW: &[&str] = &[
    ",\"window\":{\"from\":",
    ",\"until\":",
    ",\"records\":",
    ",\"packets\":",
    "}",
];

/// The part of the run that the page shows.
fn put_window<W: Write>(json: &mut Json<'_, W>, window: Option<Window>) {
    match window {
        Some(window) => json.row(
            WINDOW,
            &[
                Item::NaturalIf(window.from),
                Item::NaturalIf(window.until),
                Item::Natural(window.records),
                Item::Natural(window.packets),
            ],
        ),
        None => json.text(",\"window\":null"),
    }
}

/// The number of packets that were written before the part of the run that the page shows.
fn packets_before(window: Option<Window>) -> u64 {
    match window {
        Some(window) => window.packets,
        None => 0,
    }
}

const FIGURES: &[&str] = &[
    "],\"figures\":{\"records\":",
    ",\"telemetry\":",
    ",\"commands\":",
    ",\"ticks\":",
    ",\"files\":",
    ",\"packets\":",
    ",\"requests\":",
    ",\"housekeeping\":",
    ",\"critical\":",
    ",\"error\":",
    ",\"info\":",
    ",\"debug\":",
    ",\"other\":",
    "},\"start\":",
];

/// The figures of a run, after this number of packets that aren't counted.
fn put_figures<W: Write>(json: &mut Json<'_, W>, figures: &Figures, before: u64) {
    let items = [
        Item::Natural(figures.records),
        Item::Natural(figures.telemetry),
        Item::Natural(figures.commands),
        Item::Natural(figures.ticks),
        Item::Natural(figures.files),
        Item::Natural(figures.packets.saturating_sub(before)),
        Item::Natural(figures.requests),
        Item::Natural(figures.housekeeping),
        Item::Natural(figures.critical),
        Item::Natural(figures.error),
        Item::Natural(figures.info),
        Item::Natural(figures.debug),
        Item::Natural(figures.other),
    ];
    json.row(FIGURES, &items)
}

const CLOCK: &[&str] = &["", ",\"end\":", ",\"ordered\":", ",\"epoch\":"];

/// The times of a run, and the instant of second 0, or null.
fn put_clock<W: Write, A: Display>(json: &mut Json<'_, W>, data: &Data<'_, '_, '_, '_, A>) {
    let ordered = if data.is_ordered { "true" } else { "false" };
    let items = [
        Item::Natural(data.start),
        Item::Time(data.end),
        Item::Word(ordered),
    ];
    json.row(CLOCK, &items);
    match data.run.epoch {
        Some(epoch) => json.row(&["\"", "\""], &[Item::Text(epoch.as_bytes())]),
        None => json.text("null"),
    }
    json.open(",\"texts\":[");
}

/// The part of the data before the rule texts.
fn put_front<W: Write, A: Display>(json: &mut Json<'_, W>, data: &Data<'_, '_, '_, '_, A>) {
    json.row(PROGRAM, &[Item::Word(VERSION)]);
    put_ended(json, data.ended);
    put_window(json, data.window);
    json.open(",\"files\":[");
    put_sources(json, data.run);
    put_file(json, "stream", data.run.stream, data.bytes, &data.digest);
    put_figures(json, &data.account.figures, packets_before(data.window));
    put_clock(json, data);
}

const SAMPLES: &[&str] = &["", ",\"samples\":"];

/// The lists of fields, rules and tables.
fn put_lists<W: Write, A: Display>(json: &mut Json<'_, W>, data: &Data<'_, '_, '_, '_, A>) {
    json.open("],\"fields\":[");
    put_fields(json, data.account.seen.as_slice(), data.values);
    json.open("],\"lanes\":[");
    put_lanes(json, data.lanes);
    json.text("],\"account\":");
    json.value(data.looked_at);
    json.row(SAMPLES, &[Item::Word(""), Item::Natural(data.samples)]);
    json.open(",\"sampling\":[");
    put_sampling(json, data.sampling);
    json.open("],\"tables\":[");
    put_tables(json, &data.account.bands);
    json.open("],\"mode\":[");
    put_modes(json, &data.account.bands);
    json.open("],\"requests\":[");
}

impl<A: Display> Display for Data<'_, '_, '_, '_, A> {
    fn fmt<W: Write>(&self, f: &mut Formatter<W>) -> fmt::Result {
        let mut json = Json::new(f, self.shift);
        put_front(&mut json, self);
        put_texts(&mut json, self.account);
        put_lists(&mut json, self);
        put_sent(&mut json, self.account, self.values);
        put_commands(&mut json, self.account, self.commands);
        json.text("}");
        json.end()
    }
}
