use command_words::{Command, Mode, WordsEnd, read_words};
use std::alloc::Global;
use std::process::Abort;

/// Words, and the command that they are.
#[derive(Clone, Copy)]
struct Taken {
    words: &'static [&'static str],
    model: &'static str,
    stop: (u64, u64),
    table: Option<&'static str>,
    class: Option<&'static str>,
    workers: u64,
    mode: Mode,
}

/// The command of a model `m` with the stop 3/2 and no option.
const PLAIN: Taken = Taken {
    words: &["m", "--stop", "1.5"],
    model: "m",
    stop: (3, 2),
    table: None,
    class: None,
    workers: 1,
    mode: Mode::Run,
};

const TAKEN: [Taken; 18] = [
    PLAIN,
    // Options stand in any order, before the model and behind it.
    Taken {
        words: &[
            "--mode",
            "flat",
            "--workers",
            "64",
            "m.mo",
            "--class",
            "Main",
            "--table",
            "t.csv",
            "--stop",
            "3/2",
        ],
        model: "m.mo",
        table: Some("t.csv"),
        class: Some("Main"),
        workers: 64,
        mode: Mode::Flat,
        ..PLAIN
    },
    Taken {
        words: &["--stop=3/2", "--mode=clocks", "m"],
        mode: Mode::Clocks,
        ..PLAIN
    },
    Taken {
        words: &["m", "--stop", "6/4", "--mode", "run"],
        ..PLAIN
    },
    // The class is as it was written.
    Taken {
        words: &["m", "--stop", "1.5", "--class", "MAIN"],
        class: Some("MAIN"),
        ..PLAIN
    },
    Taken {
        words: &["m", "--stop", "1.5", "--class="],
        class: Some(""),
        ..PLAIN
    },
    // Behind `--` each word is a model, and `-` and the empty word are ones anywhere.
    Taken {
        words: &["--stop", "1.5", "--", "--m"],
        model: "--m",
        ..PLAIN
    },
    Taken {
        words: &["-", "--stop", "1.5"],
        model: "-",
        ..PLAIN
    },
    Taken {
        words: &["", "--stop", "1.5"],
        model: "",
        ..PLAIN
    },
    // Workers are 1 to 9 digits.
    Taken {
        words: &["m", "--stop", "1.5", "--workers", "000000001"],
        ..PLAIN
    },
    Taken {
        words: &["m", "--stop", "1.5", "--workers=000000064"],
        workers: 64,
        ..PLAIN
    },
    // The stress model has 1 to 1,000 members, in at most 4 digits.
    Taken {
        words: &["1", "--stop", "1.5", "--mode", "stress"],
        model: "1",
        mode: Mode::Stress(1),
        ..PLAIN
    },
    Taken {
        words: &["1000", "--stop", "1.5", "--mode", "stress"],
        model: "1000",
        mode: Mode::Stress(1000),
        ..PLAIN
    },
    Taken {
        words: &["0040", "--stop", "1.5", "--mode=stress"],
        model: "0040",
        mode: Mode::Stress(40),
        ..PLAIN
    },
    // Stops at their bounds.
    Taken {
        words: &["m", "--stop", "0"],
        stop: (0, 1),
        ..PLAIN
    },
    Taken {
        words: &["m", "--stop", "1048575.999999999"],
        stop: (1_048_575_999_999_999, 1_000_000_000),
        ..PLAIN
    },
    Taken {
        words: &["m", "--stop", "1/4294967295"],
        stop: (1, 4_294_967_295),
        ..PLAIN
    },
    Taken {
        words: &["m", "--stop", "4294967295/4096"],
        stop: (4_294_967_295, 4096),
        ..PLAIN
    },
];

/// Words, and the line that refuses them.
type Refused = (&'static [&'static str], &'static str);

const WORDS: [Refused; 22] = [
    (&[], "usage: words\n"),
    (&["m"], "usage: words\n"),
    (&["m", "--stop"], "usage: words\n"),
    (&["--stop", "1"], "usage: words\n"),
    (&["m", "n", "--stop", "1"], "usage: words\n"),
    (&["m", "1"], "usage: words\n"),
    // No option stands twice.
    (&["m", "--stop", "1", "--stop", "1"], "usage: words\n"),
    (&["m", "--stop=1", "--stop=1"], "usage: words\n"),
    (
        &["m", "--stop", "1", "--mode", "run", "--mode", "run"],
        "usage: words\n",
    ),
    (
        &["m", "--stop", "1", "--class", "A", "--class", "A"],
        "usage: words\n",
    ),
    // A word that begins with `-` is no value.
    (&["m", "--stop", "-1"], "usage: words\n"),
    (&["m", "--stop", "--", "1"], "usage: words\n"),
    (&["m", "--stop", "1", "--class", "-A"], "usage: words\n"),
    // Help is asked for, or refused.
    (&["--help"], "usage: words\n"),
    (&["-h"], "usage: words\n"),
    (&["m", "--stop", "1", "-h"], "usage: words\n"),
    (&["--help=x"], "usage: words\n"),
    // There are no other options.
    (&["--version"], "usage: words\n"),
    (&["m", "--stop", "1", "--what"], "usage: words\n"),
    (&["m", "--STOP", "1"], "usage: words\n"),
    (&["m", "-stop", "1"], "usage: words\n"),
    // The words come before the mode.
    (&["m", "--mode", "RUN"], "usage: words\n"),
];

const VALUES: [Refused; 36] = [
    (&["m", "--stop", "1", "--mode", "RUN"], "usage: --mode\n"),
    (&["m", "--stop", "1", "--mode", "Flat"], "usage: --mode\n"),
    (&["m", "--stop", "1", "--mode="], "usage: --mode\n"),
    (&["m", "--stop", "1", "--mode", "run "], "usage: --mode\n"),
    (&["m", "--stop", "1", "--mode", "clock"], "usage: --mode\n"),
    // The mode comes before the stop and the workers.
    (
        &["m", "--stop", "x", "--mode", "x", "--workers", "0"],
        "usage: --mode\n",
    ),
    (&["m", "--stop", ""], "usage: --stop\n"),
    (&["m", "--stop="], "usage: --stop\n"),
    (&["m", "--stop=-1"], "usage: --stop\n"),
    (&["m", "--stop", "+1"], "usage: --stop\n"),
    (&["m", "--stop", "1s"], "usage: --stop\n"),
    (&["m", "--stop", "1/0"], "usage: --stop\n"),
    (&["m", "--stop", "1."], "usage: --stop\n"),
    (&["m", "--stop", "0.0000000000"], "usage: --stop\n"),
    (&["m", "--stop", "0000000000000000000"], "usage: --stop\n"),
    (&["m", "--stop", "1/4294967296"], "usage: --stop\n"),
    (&["m", "--stop", "1048576"], "usage: --stop\n"),
    (&["m", "--stop", "4294967296/4096"], "usage: --stop\n"),
    // The stop comes before the workers, in each mode.
    (
        &["m", "--stop", "x", "--workers", "0", "--mode", "flat"],
        "usage: --stop\n",
    ),
    (
        &["m", "--stop", "1", "--workers", "0"],
        "usage: --workers\n",
    ),
    (
        &["m", "--stop", "1", "--workers", "65"],
        "usage: --workers\n",
    ),
    (
        &["m", "--stop", "1", "--workers", "0000000001"],
        "usage: --workers\n",
    ),
    (
        &["m", "--stop", "1", "--workers", "+1"],
        "usage: --workers\n",
    ),
    (&["m", "--stop", "1", "--workers=-1"], "usage: --workers\n"),
    (&["m", "--stop", "1", "--workers="], "usage: --workers\n"),
    (
        &["m", "--stop", "1", "--workers", "2.0"],
        "usage: --workers\n",
    ),
    (
        &["m", "--stop", "1", "--workers", "0", "--mode", "flat"],
        "usage: --workers\n",
    ),
    // The members of the stress model come last.
    (
        &["0", "--stop", "1", "--workers", "0", "--mode", "stress"],
        "usage: --workers\n",
    ),
    (&["0", "--stop", "1", "--mode", "stress"], "usage: MODEL\n"),
    (
        &["0000", "--stop", "1", "--mode", "stress"],
        "usage: MODEL\n",
    ),
    (
        &["1001", "--stop", "1", "--mode", "stress"],
        "usage: MODEL\n",
    ),
    (
        &["00001", "--stop", "1", "--mode", "stress"],
        "usage: MODEL\n",
    ),
    (&["", "--stop", "1", "--mode", "stress"], "usage: MODEL\n"),
    (&["+1", "--stop", "1", "--mode", "stress"], "usage: MODEL\n"),
    (&["1.", "--stop", "1", "--mode", "stress"], "usage: MODEL\n"),
    (&["m", "--stop", "1", "--mode", "stress"], "usage: MODEL\n"),
];

fn owned(rt: &impl Abort, alloc: Global, words: &[&str]) -> Vec<String> {
    let mut all = Vec::new(alloc);
    for word in words {
        let word = String::from_str(alloc, word).expect(rt, "memory");
        all.push(word).expect(rt, "memory");
    }
    all
}

fn is_same(command: &Command, taken: &Taken) -> bool {
    command.model == taken.model
        && (command.stop.num(), command.stop.den()) == taken.stop
        && command.table == taken.table
        && command.class == taken.class
        && command.workers == taken.workers
        && command.mode == taken.mode
}

fn is_taken(rt: &impl Abort, alloc: Global, taken: &Taken) -> bool {
    let words = owned(rt, alloc, taken.words);
    match read_words(alloc, &words) {
        Ok(command) => is_same(&command, taken),
        Err(_) => false,
    }
}

fn line_of(rt: &impl Abort, alloc: Global, words: &[&str]) -> &'static str {
    let words = owned(rt, alloc, words);
    match read_words(alloc, &words) {
        Ok(_) => "taken",
        Err(WordsEnd::Usage(fault)) => fault.line(),
        Err(WordsEnd::NoMemory) => "no memory",
    }
}

/// Words that are a command, and each of its parts.
#[test]
fn commands_are_read(rt: HostRuntime) {
    for (at, taken) in TAKEN.iter().enumerate() {
        let is = is_taken(&rt, rt.alloc(), taken);
        assert!(&rt; is, "case {at}");
    }
}

/// Words that are none, and the line that names the first check that fails.
#[test]
fn words_are_refused(rt: HostRuntime) {
    for cases in [WORDS.as_slice(), VALUES.as_slice()] {
        for (at, case) in cases.iter().enumerate() {
            let (words, wanted) = *case;
            let line = line_of(&rt, rt.alloc(), words);
            assert_eq!(&rt; line, wanted, "case {at}");
        }
    }
}
