//! Command lines, and what they ask for.

use crate::command_told::told;
use sag_words::{WordFault, one_command, read_words};
use std::alloc::{AllocError, Global};

// A command line, with a bar between its words, and what it asks for. A command is told by its name, its files in brackets,
// its numbers and its words; `-` stands for what is not given.
type Case<'a> = (&'a str, &'a str);

// The words of a command line.
fn words_of(alloc: Global, line: &str) -> Result<Vec<String>, AllocError> {
    let mut words = Vec::new(alloc);
    for word in line.split('|') {
        words.push(String::from_str(alloc, word)?)?;
    }
    Ok(words)
}

// Whether the words ask for what is told so.
fn asks(alloc: Global, words: &[String], want: &str) -> Result<bool, AllocError> {
    match read_words(alloc, words) {
        Ok(command) => {
            let told = told(alloc, &command)?;
            Ok(told.as_str() == want)
        }
        Err(WordFault::Usage) => Ok(want == "usage"),
        Err(WordFault::Memory) => Ok(false),
    }
}

// The line of the first case that is not so.
fn first_wrong<'a>(alloc: Global, cases: &[Case<'a>]) -> Result<Option<&'a str>, AllocError> {
    for (line, want) in cases {
        let words = words_of(alloc, line)?;
        if !asks(alloc, &words, want)? {
            return Ok(Some(line));
        }
    }
    Ok(None)
}

#[test]
fn takes_places_and_options(rt: HostRuntime) -> Result<(), AllocError> {
    one_command();
    let cases: [Case<'_>; 22] = [
        ("sag|replay|J|S", "replay [J] [S] - 1"),
        ("sag|replay|help|S", "replay [help] [S] - 1"),
        ("sag|replay| J|S\t", "replay [ J] [S\t] - 1"),
        // Two files of one name, and the empty word and `-` as names.
        ("sag|replay|J|J|--prec|J", "replay [J] [J] [J] 1"),
        ("sag|replay||-|--prec=", "replay [] [-] [] 1"),
        ("sag|replay|-||--prec|", "replay [-] [] [] 1"),
        ("sag|replay|J|S|--prec|-", "replay [J] [S] [-] 1"),
        // Options stand before, between and after the places.
        ("sag|replay|--prec|P|J|S", "replay [J] [S] [P] 1"),
        ("sag|replay|J|--cores|2|S", "replay [J] [S] - 2"),
        ("sag|replay|J|S|--cores|2", "replay [J] [S] - 2"),
        ("sag|replay|J|--cores=7|S|--prec|P", "replay [J] [S] [P] 7"),
        ("sag|replay|J|S|--prec=a=b", "replay [J] [S] [a=b] 1"),
        ("sag|replay|J|S|--prec=-x", "replay [J] [S] [-x] 1"),
        ("sag|replay|J|S|--prec=--", "replay [J] [S] [--] 1"),
        // After `--` each word is for a place.
        ("sag|replay|--|--cores|-x", "replay [--cores] [-x] - 1"),
        ("sag|replay|J|--|--", "replay [J] [--] - 1"),
        ("sag|replay|J|--|S", "replay [J] [S] - 1"),
        (
            "sag|replay|--cores|2|--|J|--help",
            "replay [J] [--help] - 2",
        ),
        // Numbers.
        ("sag|replay|J|S|--cores|1", "replay [J] [S] - 1"),
        ("sag|replay|J|S|--cores|256", "replay [J] [S] - 256"),
        ("sag|replay|J|S|--cores|007", "replay [J] [S] - 7"),
        (
            "sag|replay|J|S|--cores|00000000000000000000256",
            "replay [J] [S] - 256",
        ),
    ];
    assert_eq!(rt; first_wrong(rt.alloc(), &cases)?, None);
    Ok(())
}

#[test]
fn refuses_words(rt: HostRuntime) -> Result<(), AllocError> {
    let cases: [Case<'_>; 45] = [
        ("sag|replay", "usage"),
        ("sag|replay|J", "usage"),
        ("sag|replay|J|S|X", "usage"),
        // There is no help and no version, and an option's name is whole and exact.
        ("sag|replay|J|S|--help", "usage"),
        ("sag|replay|J|S|-h", "usage"),
        ("sag|replay|J|S|--version", "usage"),
        ("sag|replay|J|S|-V", "usage"),
        ("sag|replay|J|S|--core|2", "usage"),
        ("sag|replay|J|S|--Cores|2", "usage"),
        ("sag|replay|J|S|-cores|2", "usage"),
        ("sag|replay|J|S|---cores|2", "usage"),
        ("sag|replay|J|S|--cores |2", "usage"),
        ("sag|replay|J|S|--=2", "usage"),
        ("sag|replay|J|S|--JOBS=x", "usage"),
        // A word that begins with `-` is no name and no value.
        ("sag|replay|-1|S", "usage"),
        ("sag|replay|J|-S", "usage"),
        ("sag|replay|J|S|--prec|-x", "usage"),
        ("sag|replay|J|S|--prec|--", "usage"),
        ("sag|replay|J|S|--prec|--cores|2", "usage"),
        ("sag|replay|J|S|--cores|-1", "usage"),
        ("sag|replay|J|--prec|--|S", "usage"),
        // An option has a value, and comes once.
        ("sag|replay|J|S|--prec", "usage"),
        ("sag|replay|J|S|--cores", "usage"),
        ("sag|replay|J|S|--cores|2|--cores|2", "usage"),
        ("sag|replay|J|S|--prec|P|--prec=P", "usage"),
        ("sag|replay|J|S|--|--cores|2", "usage"),
        // Numbers.
        ("sag|replay|J|S|--cores|0", "usage"),
        ("sag|replay|J|S|--cores|257", "usage"),
        ("sag|replay|J|S|--cores|65537", "usage"),
        ("sag|replay|J|S|--cores|18446744073709551617", "usage"),
        ("sag|replay|J|S|--cores|", "usage"),
        ("sag|replay|J|S|--cores=", "usage"),
        ("sag|replay|J|S|--cores|-", "usage"),
        ("sag|replay|J|S|--cores|+1", "usage"),
        ("sag|replay|J|S|--cores=-1", "usage"),
        ("sag|replay|J|S|--cores| 7", "usage"),
        ("sag|replay|J|S|--cores|7 ", "usage"),
        ("sag|replay|J|S|--cores|7x", "usage"),
        ("sag|replay|J|S|--cores|1.0", "usage"),
        // Names of commands.
        ("sag", "usage"),
        ("replay|J|S", "usage"),
        ("sag|replays|J|S", "usage"),
        ("sag|Replay|J|S", "usage"),
        ("sag| replay|J|S", "usage"),
        ("sag|--cores|2|replay|J|S", "usage"),
    ];
    assert_eq!(rt; first_wrong(rt.alloc(), &cases)?, None);
    Ok(())
}

#[test]
fn reads_files_and_options(rt: HostRuntime) -> Result<(), AllocError> {
    let cases: [Case<'_>; 37] = [
        ("sag|check|J|C|--prec=P|--cores=007", "check [J] [C] [P] 7"),
        ("sag|check|--|C|J", "check [C] [J] - 1"),
        ("sag|report|J|--cores=2|C", "report [J] [C] - 2 false"),
        ("sag|report|J|C", "report [J] [C] - 1 false"),
        ("sag|report|--tasks|J|C", "report [J] [C] - 1 true"),
        (
            "sag|report|J|--tasks|C|--cores=2",
            "report [J] [C] - 2 true",
        ),
        ("sag|report|J|C|--tasks|--tasks", "usage"),
        ("sag|report|J|C|--tasks=x", "usage"),
        ("sag|report|J|C|--task", "usage"),
        ("sag|convert|C", "convert [C]"),
        ("sag|convert|C|--cores=1", "usage"),
        ("sag|analyse|J", "analyse [J] - 1 100000"),
        ("sag|analyse|--budget=1|J|--prec|P", "analyse [J] [P] 1 1"),
        (
            "sag|analyse|J|--budget|001000000|--cores|256",
            "analyse [J] - 256 1000000",
        ),
        ("sag|analyse|J|--budget|0", "usage"),
        ("sag|analyse|J|--budget|1000001", "usage"),
        ("sag|analyse|J|--budget|4294967297", "usage"),
        ("sag|analyse|J|--budget|", "usage"),
        ("sag|analyse|J|--budget|+1", "usage"),
        ("sag|audit|J|S|R", "audit [J] [S] [R] - 1"),
        (
            "sag|audit|J|S|--prec=P|R|--cores|2",
            "audit [J] [S] [R] [P] 2",
        ),
        ("sag|audit|J|S", "usage"),
        ("sag|audit|J|S|R|X", "usage"),
        ("sag|audit|J|S|R|--cores=0", "usage"),
        ("sag|audit|J|S|R|--budget=1", "usage"),
        ("sag|whatif|J|E", "whatif [J] [E] - 1 100000"),
        (
            "sag|whatif|--budget=7|J|--prec|P|E|--cores=2",
            "whatif [J] [E] [P] 2 7",
        ),
        ("sag|whatif|--|E|--trial", "whatif [E] [--trial] - 1 100000"),
        ("sag|whatif|J", "usage"),
        ("sag|whatif|J|E|X", "usage"),
        ("sag|whatif|J|E|--budget=1|--budget=1", "usage"),
        ("sag|whatif|J|E|--cores=2|--cores|2", "usage"),
        ("sag|whatif|J|E|--prec=P|--prec=P", "usage"),
        ("sag|whatif|J|E|--budget=0", "usage"),
        ("sag|whatif|J|E|--cores=257", "usage"),
        ("sag|whatif|J|E|--trial=0", "usage"),
        ("sag|what-if|J|E", "usage"),
    ];
    assert_eq!(rt; first_wrong(rt.alloc(), &cases)?, None);
    Ok(())
}

#[test]
fn reads_numbers_ends_and_policies(rt: HostRuntime) -> Result<(), AllocError> {
    let cases: [Case<'_>; 31] = [
        ("sag|attain|J|1|02|best", "attain [J] 1 2 best 100000"),
        (
            "sag|attain|--budget=7|J|18446744073709551615|0|worst",
            "attain [J] 18446744073709551615 0 worst 7",
        ),
        ("sag|attain|--|--|1|2|best", "attain [--] 1 2 best 100000"),
        ("sag|attain|J|1|1", "usage"),
        ("sag|attain|J|1|1|middle", "usage"),
        ("sag|attain|J|1|1|Best", "usage"),
        ("sag|attain|J|1|1|worst ", "usage"),
        ("sag|attain|J|1|1|", "usage"),
        ("sag|attain|J|1|+1|best", "usage"),
        ("sag|attain|J| 1|1|best", "usage"),
        ("sag|attain|J|18446744073709551616|1|best", "usage"),
        ("sag|attain|J|1|1|best|--budget=0", "usage"),
        ("sag|attain|J|1|1|best|--cores=1", "usage"),
        ("sag|attain|J|1|1|best|--prec=P", "usage"),
        ("sag|selftest|0", "selftest 0 1"),
        ("sag|selftest|--cores=256|007", "selftest 7 256"),
        ("sag|selftest", "usage"),
        ("sag|selftest|7x", "usage"),
        ("sag|selftest|+7", "usage"),
        ("sag|selftest|7|--cores=257", "usage"),
        ("sag|selftest|7|--budget=7", "usage"),
        ("sag|unroll|T|01|rate", "unroll [T] 1 rate"),
        ("sag|unroll|T|100|deadline", "unroll [T] 100 deadline"),
        (
            "sag|unroll|T|281474976710655|edf",
            "unroll [T] 281474976710655 edf",
        ),
        ("sag|unroll|T|100", "usage"),
        ("sag|unroll|T|0|rate", "usage"),
        ("sag|unroll|T|281474976710656|rate", "usage"),
        ("sag|unroll|T|+1|rate", "usage"),
        ("sag|unroll|T|1|EDF", "usage"),
        ("sag|unroll|T|1|rate|X", "usage"),
        ("sag|unroll|T|1|rate|--cores=1", "usage"),
    ];
    assert_eq!(rt; first_wrong(rt.alloc(), &cases)?, None);
    Ok(())
}

#[test]
fn reads_trials(rt: HostRuntime) -> Result<(), AllocError> {
    let cases: [Case<'_>; 18] = [
        ("sag|gap|J", "gap [J] - 1 100000 -"),
        ("sag|gap|--trial|0|J", "gap [J] - 1 100000 0"),
        (
            "sag|gap|J|--trial=0004294967295|--prec=P|--cores=2|--budget=9",
            "gap [J] [P] 2 9 4294967295",
        ),
        ("sag|gap", "usage"),
        ("sag|gap|J|X", "usage"),
        ("sag|gap|J|--trial", "usage"),
        ("sag|gap|J|--trial=", "usage"),
        ("sag|gap|J|--trial|4294967296", "usage"),
        ("sag|gap|J|--trial|18446744073709551616", "usage"),
        ("sag|gap|J|--trial|+1", "usage"),
        ("sag|gap|J|--trial=-1", "usage"),
        ("sag|gap|J|--trial=1|--trial=1", "usage"),
        ("sag|gap|J|--prec=P|--prec=P", "usage"),
        ("sag|gap|J|--cores=2|--cores=2", "usage"),
        ("sag|gap|J|--budget=1|--budget=1", "usage"),
        ("sag|gap|J|--budget=1000001", "usage"),
        ("sag|gap|J|--cores=0", "usage"),
        ("sag|gap|J|--trials=1", "usage"),
    ];
    assert_eq!(rt; first_wrong(rt.alloc(), &cases)?, None);
    Ok(())
}

// So many zeros and a five.
fn zeros_and_five(alloc: Global, count: u32) -> Result<String, AllocError> {
    let mut number = String::new(alloc);
    for _ in 0..count {
        number.push('0')?;
    }
    number.push('5')?;
    Ok(number)
}

#[test]
fn takes_many_zeros_and_no_words(rt: HostRuntime) -> Result<(), AllocError> {
    let alloc = rt.alloc();
    let number = zeros_and_five(alloc, 100_000)?;
    let line = format!(in alloc; "sag|replay|J|S|--cores|{number}")?;
    assert!(rt;
        asks(
            alloc,
            &words_of(alloc, line.as_str())?,
            "replay [J] [S] - 5"
        )?
    );
    assert!(rt; asks(alloc, &[], "usage")?);
    Ok(())
}
