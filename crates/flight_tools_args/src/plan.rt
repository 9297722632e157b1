//! The plan of a command line.

use clap::Error;

/// The command to run, with its files and options (docs/TOOLS.md).
#[derive(Drop)]
pub enum CommandPlan<'a> {
    /// `--help`, `help COMMAND` or `--version`: prints the text of `clap`.
    Said(Error),
    /// `table [--watchpoints WDT] FILE`: lists a table file as text, with the analysis of its actionpoints.
    Table {
        file: &'a str,
        watchpoints: Option<&'a str>,
    },
    /// `stream [--whole] [ROWS] --stream STREAM [RULES]..`: lists the records of a stream as text, as a whole script, or as rows, with
    /// the names of these rule texts.
    Stream {
        stream: &'a str,
        rules: Vec<&'a str>,
        whole: bool,
        rows: RowWords<'a>,
    },
    /// `packets [ROWS] PACKETS [RULES]..`: lists the packets that a run wrote, as text or as rows, with the names of these rule texts.
    Packets {
        packets: &'a str,
        rules: Vec<&'a str>,
        rows: RowWords<'a>,
    },
    /// `scenario --script SCRIPT --out STREAM [RULES]`: writes the stream of a script.
    Scenario {
        script: &'a str,
        out: &'a str,
        rules: Option<&'a str>,
    },
    /// `import [OPTIONS] --out STREAM RAW..`: imports archives of space packets to a stream.
    Import {
        raw: Vec<&'a str>,
        out: &'a str,
        how: ImportWords<'a>,
    },
    /// `export --stream STREAM --out RAW`: writes the packets of a stream, one after the other.
    Export {
        stream: &'a str,
        out: &'a str,
    },
    /// `report [--epoch TIME] [--from SECONDS] [--until SECONDS] --schedule SCHEDULE --stream STREAM --out PAGE RULES..`: writes a run, or
    /// a part of it, as a page.
    Report {
        schedule: &'a str,
        stream: &'a str,
        out: &'a str,
        rules: Vec<&'a str>,
        how: PageWords<'a>,
    },
    /// `check [--schedule SCHEDULE] [--all] [--strict] [--json] RULES..`: reports the errors and warnings of rule texts.
    Check {
        schedule: Option<&'a str>,
        rules: Vec<&'a str>,
        all: bool,
        strict: bool,
        json: bool,
    },
    /// `check --explain [NAME]`: explains the warning of this name or the error of this number; lists them all if the name is empty.
    Explain {
        name: &'a str,
    },
    /// `changes OLD NEW`: lists what the new rule text does differently, whatever packets come.
    Changes {
        old: &'a str,
        new: &'a str,
    },
    /// `compare --schedule SCHEDULE --stream STREAM [--with RULES].. [--json] [--fail-on WHAT] OLD NEW`: lists the requests and events in
    /// which two rule texts differ, over a stream that may bring further texts.
    Compare {
        schedule: &'a str,
        stream: &'a str,
        old: &'a str,
        new: &'a str,
        further: Vec<&'a str>,
        json: bool,
        fail_on: Option<&'a str>,
    },
    /// `format [--check] RULES..`: gives rule texts the one layout, or lists those that differ from it.
    Format {
        rules: Vec<&'a str>,
        check: bool,
    },
    /// `try [--strict] --script SCRIPT [--script SCRIPT].. --schedule SCHEDULE RULES..`: runs each script, and reports whether its
    /// expectations are met.
    Try {
        scripts: Vec<&'a str>,
        schedule: &'a str,
        rules: Vec<&'a str>,
        strict: bool,
    },
    /// `lsp [--stdio]`: serves an editor over standard input and output.
    LanguageServer,
    /// `live --schedule SCHEDULE RULES..`: runs a stream as it comes, from standard input to standard output.
    Live {
        schedule: &'a str,
        rules: Vec<&'a str>,
    },
}

/// The form of rows: `--csv` or `--json`, and `--epoch TIME`. Neither form means text.
#[derive(Clone, Copy)]
pub struct RowWords<'a> {
    /// `--csv`: comma-separated values.
    pub csv: bool,
    /// `--json`: one JSON object per line.
    pub json: bool,
    /// The instant of second 0, as written.
    pub epoch: Option<&'a str>,
}

/// The options of a page, as written.
#[derive(Clone, Copy)]
pub struct PageWords<'a> {
    /// The instant of second 0.
    pub epoch: Option<&'a str>,
    /// The seconds from which on records are shown.
    pub from: Option<&'a str>,
    /// The seconds before which records are shown.
    pub until: Option<&'a str>,
}

/// The options of an import, as written.
#[derive(Clone, Copy)]
pub struct ImportWords<'a> {
    /// Whether a marker is before each packet.
    pub marked: bool,
    /// Whether bytes that begin no plausible packet are skipped.
    pub resync: bool,
    /// Whether idle packets become records.
    pub keep_idle: bool,
    /// Whether packets with a fault become records.
    pub keep_faulty: bool,
    /// The only message ids that become records, separated by commas.
    pub only: Option<&'a str>,
    /// The byte at which a packet's time begins, counted from 0.
    pub time_at: Option<&'a str>,
    /// The seconds that are subtracted from each time.
    pub subtract: Option<&'a str>,
    /// The seconds from packet to packet, if packets have no times.
    pub step: Option<&'a str>,
    /// The seconds from tick to tick.
    pub tick: Option<&'a str>,
    /// The number of the rule text with which the stream starts.
    pub start: Option<&'a str>,
    /// Whether a warning is a fault.
    pub strict: bool,
}
