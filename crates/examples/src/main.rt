//! Runs and draws each example script, the worked scripts and the examples of checks, of a table of streams and of a
//! replay, and says whether their answers are those that lie beside them.
//!
//! It has no contract: it is a test.
#![tactic(auto)]

use drawing::{DrawOptions, draw};
use replay::{Outputs, Stamp, replay};
use schedule_check::{CheckSettings, check};
use script::{Settings, Unwatched, run_script};
use std::rt::Files;
use std::{fs, io};
use traffic::{Plan, write_streams};
use wire_time::Rate;

/// The examples, each with its script, its answers, and whether a summary is asked for.
const EXAMPLES: [(&str, &str, bool); 8] = [
    ("first.script", "first.answers", false),
    ("priorities.script", "priorities.answers", false),
    ("schedule.script", "schedule.answers", false),
    ("manual.script", "manual.answers", false),
    ("guard_band.script", "guard_band.answers", false),
    ("extension.script", "extension.answers", false),
    ("planned.script", "schedule.answers", false),
    ("summary.script", "summary.answers", true),
];

/// The examples of a check, each with its schedules, its answers, and whether windows are asked for.
const CHECKS: [(&str, &str, bool); 2] = [
    ("apart.schedules", "apart.answers", false),
    ("windows.schedules", "windows.answers", true),
];

/// The examples of a picture, each with its script, its picture, and the moments that it begins and ends at, in
/// picoseconds.
const PICTURES: [(&str, &str, Option<u128>, Option<u128>); 11] = [
    ("first.script", "first.svg", None, None),
    ("priorities.script", "priorities.svg", None, None),
    ("schedule.script", "schedule.svg", None, Some(60_000_000)),
    (
        "manual.script",
        "manual.svg",
        Some(1_528_743_495_910_000_000_000),
        Some(1_528_743_495_913_000_000_000),
    ),
    (
        "guard_band.script",
        "guard_band.svg",
        Some(100_000_000),
        Some(130_000_000),
    ),
    (
        "extension.script",
        "extension.svg",
        Some(3_000_000_000),
        Some(6_000_000_000),
    ),
    ("summary.script", "summary.svg", None, None),
    ("planned.script", "planned.svg", None, Some(60_000_000)),
    ("machine.script", "machine.svg", None, Some(1_000_000_000)),
    (
        "apart.schedules",
        "apart.svg",
        Some(1_528_743_495_910_000_000_000),
        Some(1_528_743_495_913_000_000_000),
    ),
    (
        "windows.schedules",
        "windows.svg",
        Some(1_528_743_495_910_000_000_000),
        Some(1_528_743_495_913_000_000_000),
    ),
];

/// The settings that the program has where no words are given, with a moment to run to.
fn settings(until: Option<u128>) -> Option<Settings> {
    let rate = Rate::from_mbps(1000).ok()?;
    Settings::new(rate, 1500, 128, until).ok()
}

/// Whether a script is answered with these octets, by the settings that the program has where no words are given, with
/// a summary or without.
fn answers_with<R: AllocGlobal>(rt: &R, script: &[u8], answers: &[u8], summary: bool) -> bool {
    let Some(settings) = settings(None) else {
        return false;
    };
    let settings = settings.with_summary(summary);
    let mut got = Vec::new(rt.alloc());
    run_script(rt.alloc(), script, &mut got, settings, &mut Unwatched).is_ok()
        && got.as_slice() == answers
}

/// Runs an example.
fn agrees<R: Files + AllocGlobal>(
    rt: &R,
    script: &str,
    answers: &str,
    summary: bool,
) -> io::Result<bool> {
    let script = fs::read_to_string(rt, script)?;
    let answers = fs::read_to_string(rt, answers)?;
    Ok(answers_with(rt, script.as_bytes(), answers.as_bytes(), summary))
}

/// Whether an example of a check is reported with the octets that lie beside it, at 1000 Mb/s, with windows or without.
fn check_agrees<R: Files + AllocGlobal>(
    rt: &R,
    schedules: &str,
    answers: &str,
    windows: bool,
) -> io::Result<bool> {
    let schedules = fs::read_to_string(rt, schedules)?;
    let answers = fs::read_to_string(rt, answers)?;
    let Ok(rate) = Rate::from_mbps(1000) else {
        return Ok(false);
    };
    let settings = CheckSettings::usual(rate, windows);
    let mut got = Vec::new(rt.alloc());
    let checked = check(
        rt.alloc(),
        schedules.as_bytes(),
        &mut got,
        settings,
        &mut Unwatched,
    );
    Ok(checked.is_ok() && got.as_slice() == answers.as_bytes())
}

/// Whether the example of a table of streams and a schedule gives the script that lies beside them.
fn streams_agree<R: Files + AllocGlobal>(rt: &R) -> io::Result<bool> {
    let table = fs::read(rt, "planned.streams")?;
    let schedule = fs::read(rt, "planned.schedule")?;
    let script = fs::read(rt, "planned.script")?;
    let mut got = Vec::new(rt.alloc());
    let written = write_streams(
        rt.alloc(),
        table.as_slice(),
        schedule.as_slice(),
        &mut got,
        Plan::earliest(0),
        &mut Unwatched,
    );
    Ok(written.is_ok() && got.as_slice() == script.as_slice())
}

/// Whether the example of a replay gives the report and the capture that lie beside it, run to 2 ms, and after the
/// report a summary where one is asked for.
fn replay_agrees<R: Files + AllocGlobal>(rt: &R, summary: bool) -> io::Result<bool> {
    let script = fs::read(rt, "machine.script")?;
    let capture = fs::read(rt, "machine.pcap")?;
    let mut report = fs::read(rt, "machine.report")?;
    if summary {
        report.extend_from_slice(fs::read(rt, "machine.summary")?.as_slice())?;
    }
    let departures = fs::read(rt, "machine.departures.pcap")?;
    let Some(settings) = settings(Some(2_000_000_000)) else {
        return Ok(false);
    };
    let settings = settings.with_summary(summary);
    let mut written = Outputs {
        report: Vec::new(rt.alloc()),
        departures: Vec::new(rt.alloc()),
    };
    let replayed = replay(
        rt.alloc(),
        script.as_slice(),
        capture.as_slice(),
        &mut written,
        settings,
        Stamp::Start,
        &mut Unwatched,
    );
    Ok(
        replayed.is_ok()
            && written.report.as_slice() == report.as_slice()
            && written.departures.as_slice() == departures.as_slice(),
    )
}

/// Whether an example is drawn as the picture that lies beside it.
fn picture_agrees<R: Files + AllocGlobal>(
    rt: &R,
    script: &str,
    picture: &str,
    from: Option<u128>,
    to: Option<u128>,
) -> io::Result<bool> {
    let script = fs::read(rt, script)?;
    let picture = fs::read(rt, picture)?;
    let Some(settings) = settings(None) else {
        return Ok(false);
    };
    let options = DrawOptions {
        from,
        to,
        width: 1200,
    };
    let mut got = Vec::new(rt.alloc());
    let drawn = draw(
        rt.alloc(),
        script.as_slice(),
        &mut got,
        settings,
        options,
        &mut Unwatched,
    );
    Ok(drawn.is_ok() && got.as_slice() == picture.as_slice())
}

/// The words after the name of an example.
fn told(agrees: bool) -> &'static str {
    if agrees {
        "answers as it should"
    } else {
        "ANSWERS OTHERWISE"
    }
}

/// How many worked scripts there are, and how many of them answer as they should. A script and its answers are parted
/// by a line of four dashes, and one script from the next by a line of four equals signs.
fn worked<R: Files + AllocGlobal>(rt: &R) -> io::Result<(u32, u32)> {
    let text = fs::read_to_string(rt, "worked.txt")?;
    let mut scripts = 0u32;
    let mut answered = 0u32;
    for case in text.split("====\n") {
        scripts = scripts.saturating_add(1);
        if let Some((script, answers)) = case.split_once("----\n")
            && answers_with(rt, script.as_bytes(), answers.as_bytes(), false)
        {
            answered = answered.saturating_add(1);
        }
    }
    Ok((scripts, answered))
}

fn main(rt: HostRuntime) -> io::Result<()> {
    for (script, answers, summary) in EXAMPLES {
        let told = told(agrees(&rt, script, answers, summary)?);
        println!(rt; "{script} {told}")?;
    }
    for (schedules, answers, windows) in CHECKS {
        let told = told(check_agrees(&rt, schedules, answers, windows)?);
        println!(rt; "{schedules} {told}")?;
    }
    let written = told(streams_agree(&rt)?);
    println!(rt; "planned.streams {written}")?;
    for (name, summary) in [("machine.script", false), ("machine.summary", true)] {
        let told = told(replay_agrees(&rt, summary)?);
        println!(rt; "{name} {told}")?;
    }
    for (script, picture, from, to) in PICTURES {
        let told = told(picture_agrees(&rt, script, picture, from, to)?);
        println!(rt; "{picture} {told}")?;
    }
    let (scripts, answered) = worked(&rt)?;
    println!(rt; "{answered} of {scripts} worked scripts answer as they should")?;
    Ok(())
}
