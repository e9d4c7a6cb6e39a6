// The values of options, which no answer tells, and words with blanks. All else of a line is told by rows.
use nv_driver::{Command, Limits, Look, Point, Run, ScriptFile, Service, Trail, read};
use std::alloc::{AllocError, Global};
use std::test::Fail;

// Lines, with `|` between their words, and behind ` > ` what they ask for.
const LINES: [&str; 61] = [
    // What isn't named is usual.
    "varan|run|--script|s|v > run s - 256 1048576 10000000 65536 8 text|v",
    // A row splits its words at blanks.
    "varan|run|--script|s| v|v v > run s - 256 1048576 10000000 65536 8 text| v|v v",
    "varan|run|--script|s|--ring| 2|v > refused",
    "varan|run|--script|s|--ring|2 |v > refused",
    "varan|run|--script|s|--ring|2|v > run s - 2 1048576 10000000 65536 8 text|v",
    "varan|run|--script|s|--ring|1024|v > run s - 1024 1048576 10000000 65536 8 text|v",
    "varan|run|--script|s|--ring|0000000000000000000002|v > run s - 2 1048576 10000000 65536 8 text|v",
    "varan|run|--script|s|--memory|131072|v > run s - 256 131072 10000000 65536 8 text|v",
    "varan|run|--script|s|--memory|135168|v > run s - 256 135168 10000000 65536 8 text|v",
    "varan|run|--script|s|--memory|16777216|v > run s - 256 16777216 10000000 65536 8 text|v",
    "varan|run|--script|s|--budget|1|v > run s - 256 1048576 1 65536 8 text|v",
    "varan|run|--script|s|--budget|1000000000|v > run s - 256 1048576 1000000000 65536 8 text|v",
    "varan|run|--script|s|--hang|1|v > run s - 256 1048576 1+ 65536 8 text|v",
    "varan|run|--script|s|--hang=1000000000|v > run s - 256 1048576 1000000000+ 65536 8 text|v",
    "varan|run|--script|s|--hang|1|--budget|1|v > refused",
    "varan|serve|--hang|5|v > serve - - 256 1048576 5+ 500000000 8 - -|v",
    "varan|replay|--script|s|--hang|5|t|v > replay s - t v 1048576 5+ 1",
    "varan|inspect|--script|s|t|v|--hang|3|--count|2 > inspect s - t v 1048576 3+ 1 count 2 -",
    "varan|run|--script|s|--calls|1|v > run s - 256 1048576 10000000 1 8 text|v",
    "varan|run|--script|s|--calls|131072|v > run s - 256 1048576 10000000 131072 8 text|v",
    "varan|run|--script|s|--threads|1|v > run s - 256 1048576 10000000 65536 1 text|v",
    "varan|run|--script|s|--threads|8|v > run s - 256 1048576 10000000 65536 8 text|v",
    "varan|record|--script|s|--rules|r|--ring|4|--memory=135168|--budget|5|--calls|6|--threads|7|v > record s r 4 135168 5 6 7 text|v",
    // A service has no usual length.
    "varan|serve|v > serve - - 256 1048576 100000000+ 500000000 8 - -|v",
    "varan|serve|v|--clients > serve - - 256 1048576 100000000+ 500000000 8 clients -|v",
    "varan|serve|--log|v > serve - - 256 1048576 100000000+ 500000000 8 - log|v",
    "varan|serve|--script=s|1|2|3|4|5|6|7|8 > serve s - 256 1048576 100000000+ 500000000 8 - -|1|2|3|4|5|6|7|8",
    "varan|serve|--calls|500000000|v > serve - - 256 1048576 100000000+ 500000000 8 - -|v",
    "varan|serve|--calls|500000001|v > refused",
    "varan|serve|--budget|10000000|--calls=65536|--|--clients|--log > serve - - 256 1048576 10000000 65536 8 - -|--clients|--log",
    "varan|serve|--clients|--script|s|--rules|r|--ring|4|--memory=135168|--budget|5|--calls|6|--threads|7|--log|a|b > serve s r 4 135168 5 6 7 clients log|a|b",
    "varan|replay|--script|s|t|v > replay s - t v 1048576 10000000 1",
    "varan|replay|t|--script=s|v > replay s - t v 1048576 10000000 1",
    "varan|replay|--index=7|--rules|b|--memory|131072|--script|a|--budget|1|--|-t|--index > replay a b -t --index 131072 1 7",
    "varan|replay|--script|s|--index|0|t|v > replay s - t v 1048576 10000000 0",
    "varan|replay|--script|s|--index|1|t|v > replay s - t v 1048576 10000000 1",
    "varan|replay|--script|s|--index|7|t|v > replay s - t v 1048576 10000000 7",
    "varan|replay|--script|s|--index|007|t|v > replay s - t v 1048576 10000000 7",
    "varan|inspect|t|--count|4|--rules=r|--budget|3|v|--index|0|--memory|131072|--script|s > inspect s r t v 131072 3 0 count 4 -",
    "varan|inspect|--script|s|t|v|--stamp|0 > inspect s - t v 1048576 10000000 1 stamp 0 -",
    "varan|inspect|--script|s|t|v|--stamp=007 > inspect s - t v 1048576 10000000 1 stamp 7 -",
    "varan|inspect|--script|s|t|v|--stamp|4294967295 > inspect s - t v 1048576 10000000 1 stamp 4294967295 -",
    "varan|inspect|--script|s|t|v|--call|0 > inspect s - t v 1048576 10000000 1 call 0 -",
    "varan|inspect|--script|s|t|v|--call|64 > inspect s - t v 1048576 10000000 1 call 64 -",
    "varan|inspect|--script|s|t|v|--call|4294967295 > inspect s - t v 1048576 10000000 1 call 4294967295 -",
    "varan|inspect|--script|s|t|v|--count|1 > inspect s - t v 1048576 10000000 1 count 1 -",
    "varan|inspect|--script|s|t|v|--count|1000000000 > inspect s - t v 1048576 10000000 1 count 1000000000 -",
    "varan|inspect|--script|s|t|v|--budget|1|--count|2 > inspect s - t v 1048576 1 1 count 2 -",
    "varan|inspect|--script|s|t|v|--length|4|--stamp|2|--dump|65572 > inspect s - t v 1048576 10000000 1 stamp 2 65572+4",
    "varan|inspect|--script|s|t|v|--length|1|--stamp|2|--dump|0 > inspect s - t v 1048576 10000000 1 stamp 2 0+1",
    "varan|inspect|--script|s|t|v|--length|4096|--stamp|2|--dump|0 > inspect s - t v 1048576 10000000 1 stamp 2 0+4096",
    "varan|inspect|--script|s|t|v|--length|4096|--stamp|2|--dump|4294963199 > inspect s - t v 1048576 10000000 1 stamp 2 4294963199+4096",
    "varan|inspect|--script|s|t|v|--length|1|--stamp|2|--dump|4294967294 > inspect s - t v 1048576 10000000 1 stamp 2 4294967294+1",
    // A transcript in the place of the script, and never beside it.
    "varan|run|--transcript|s|v > run transcript s - 256 1048576 10000000 65536 8 text|v",
    "varan|record|--transcript=s|v > record transcript s - 256 1048576 10000000 65536 8 text|v",
    "varan|replay|--transcript|s|t|v > replay transcript s - t v 1048576 10000000 1",
    "varan|inspect|t|v|--stamp|0|--transcript|s > inspect transcript s - t v 1048576 10000000 1 stamp 0 -",
    "varan|run|--script|s|--transcript|s|v > refused",
    "varan|replay|--transcript|s|--script|s|t|v > refused",
    "varan|serve|--transcript|s|v > refused",
    // As above with all that a run may name, as JSON.
    "varan|run|--json|--script|s|--rules|r|--ring|4|--memory|135168|--budget|5|--calls|6|--threads|7|a|b > run s r 4 135168 5 6 7 JSON|a|b",
];

fn words_of(alloc: Global, line: &str) -> Result<Vec<String>, AllocError> {
    let mut words = Vec::new(alloc);
    for word in line.split('|') {
        words.push(String::from_str(alloc, word)?)?;
    }
    Ok(words)
}

// Whether the count of instructions begins anew at each answer.
fn tell_renews(renews: bool) -> &'static str {
    if renews { "+" } else { "" }
}

fn tell_limits(alloc: Global, limits: &Limits) -> Result<String, AllocError> {
    let Limits {
        ring,
        memory,
        budget,
        renews,
        calls,
        threads,
        ..
    } = limits;
    let anew = tell_renews(*renews);
    format!(in alloc; "{ring} {memory} {budget}{anew} {calls} {threads}")
}

// A transcript's name is told behind a sign of its own.
fn tell_script(script: ScriptFile<'_>) -> &'static str {
    if script.is_transcript {
        "transcript "
    } else {
        ""
    }
}

fn tell_run(alloc: Global, run: &Run<'_>) -> Result<String, AllocError> {
    let limits = tell_limits(alloc, &run.limits)?;
    let form = if run.json { "JSON" } else { "text" };
    let text = format!(in alloc;
        "{}{} {} {limits} {form}",
        tell_script(run.script),
        run.script.name,
        run.rules.unwrap_or("-")
    )?;
    with_versions(text, &run.versions)
}

fn tell_service(alloc: Global, service: &Service<'_>) -> Result<String, AllocError> {
    let limits = tell_limits(alloc, &service.limits)?;
    let script = service.script.unwrap_or("-");
    let rules = service.rules.unwrap_or("-");
    let clients = if service.clients { "clients" } else { "-" };
    let log = if service.log { "log" } else { "-" };
    let text = format!(in alloc; "{script} {rules} {limits} {clients} {log}")?;
    with_versions(text, &service.versions)
}

fn with_versions(mut text: String, versions: &[&str]) -> Result<String, AllocError> {
    for version in versions {
        text.push_str("|")?;
        text.push_str(version)?;
    }
    Ok(text)
}

fn tell_trail(alloc: Global, trail: &Trail<'_>) -> Result<String, AllocError> {
    let rules = trail.rules.unwrap_or("-");
    let files = format!(in alloc;
        "{}{} {rules} {} {}",
        tell_script(trail.script),
        trail.script.name,
        trail.trace,
        trail.version
    )?;
    let anew = tell_renews(trail.renews);
    format!(in alloc;
        "{files} {} {}{anew} {}",
        trail.memory, trail.budget, trail.index
    )
}

fn tell_point(alloc: Global, point: Point) -> Result<String, AllocError> {
    match point {
        Point::Stamp(stamp) => format!(in alloc; "stamp {stamp}"),
        Point::Call(number) => format!(in alloc; "call {number}"),
        Point::Count(count) => format!(in alloc; "count {count}"),
    }
}

fn tell_look(alloc: Global, look: &Look<'_>) -> Result<String, AllocError> {
    let trail = tell_trail(alloc, &look.trail)?;
    let point = tell_point(alloc, look.point)?;
    match look.dump {
        Some((address, length)) => format!(in alloc; "{trail} {point} {address}+{length}"),
        None => format!(in alloc; "{trail} {point} -"),
    }
}

// What a line asks for, as a text.
fn tell(alloc: Global, words: &[String]) -> Result<String, AllocError> {
    match read(alloc, words) {
        Ok(Command::Run(run)) => format!(in alloc; "run {}", tell_run(alloc, &run)?),
        Ok(Command::Serve(service)) => {
            format!(in alloc; "serve {}", tell_service(alloc, &service)?)
        }
        Ok(Command::Record(run)) => format!(in alloc; "record {}", tell_run(alloc, &run)?),
        Ok(Command::Replay(trail)) => format!(in alloc; "replay {}", tell_trail(alloc, &trail)?),
        Ok(Command::Inspect(look)) => format!(in alloc; "inspect {}", tell_look(alloc, &look)?),
        _ => String::from_str(alloc, "refused"),
    }
}

#[test]
fn lines_ask_for_what_they_say(rt: HostRuntime) -> Result<(), Fail> {
    for line in LINES {
        let (line, wanted) = line.split_once(" > ").ok_or("no answer")?;
        let words = words_of(rt.alloc(), line)?;
        let told = tell(rt.alloc(), &words)?;
        assert_eq!(rt; told.as_str(), wanted);
    }
    Ok(())
}
