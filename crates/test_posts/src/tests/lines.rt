//! The lines and the status of runs with the word `--posters`.

use rt_inbox::NoGate;
use rt_values::{List, Text};
use show_posts::show_posted;
use show_streams::{SureOut, SureSource};
use std::alloc::Global;
use std::process::Abort;

/// A source, and what a run of it prints and ends with.
struct Row {
    what: &'static str,
    word: &'static str,
    source: &'static str,
    status: u8,
    printed: &'static str,
}

static ROWS: [Row; 4] = [
    Row {
        what: "a mark that was posted",
        word: "--posters",
        source: "{\"components\":{\"App\":{\"view\":[{\"el\":\"div\",\"kids\":[\"hello world\"]}]}},\"root\":\"App\",\"posts\":[[{\"mark\":3}]]}",
        status: 0,
        printed: "append #0 (div#1 \"hello world\"#2)\nreport 0 units 0 bodies 4 edits 1 log build made:1 made:2 made:3\nreport 1 units 1 bodies 1 edits 0 log input:1 rerun:3\ntaken 1 0:0 mark:3\n",
    },
    Row {
        what: "a source without posts",
        word: "--posters",
        source: "{\"components\":{\"App\":{\"view\":[{\"el\":\"div\",\"kids\":[\"hello world\"]}]}},\"root\":\"App\"}",
        status: 3,
        printed: "",
    },
    Row {
        what: "a list without posts",
        word: "--posters",
        source: "{\"components\":{\"App\":{\"view\":[{\"el\":\"div\",\"kids\":[\"hello world\"]}]}},\"root\":\"App\",\"posts\":[[]]}",
        status: 0,
        printed: "append #0 (div#1 \"hello world\"#2)\nreport 0 units 0 bodies 4 edits 1 log build made:1 made:2 made:3\n",
    },
    Row {
        what: "another word",
        word: "--poster",
        source: "{\"components\":{\"App\":{\"view\":[]}},\"root\":\"App\",\"posts\":[[]]}",
        status: 2,
        printed: "",
    },
];

/// Texts as one.
fn one_behind_another(rt: &impl Abort, alloc: Global, texts: &[List<u8>]) -> Vec<u8> {
    let mut whole = Vec::new(alloc);
    for text in texts {
        whole
            .extend_from_slice(text.as_slice())
            .expect(rt, "memory for a text");
    }
    whole
}

#[test]
fn posted_runs_print_what_they_ought_to(rt: HostRuntime) {
    let alloc = rt.alloc();
    for row in &ROWS {
        let bytes = List::from_slice(alloc, row.source.as_bytes()).expect(
            &rt,
            "memory for a source",
        );
        let mut words = List::new(alloc);
        let word = Text::from_str(alloc, row.word).expect(&rt, "memory for a word");
        words.push(word).expect(&rt, "memory for a word");
        let mut source = SureSource::new(bytes);
        let mut out = SureOut::new(alloc);
        let status = show_posted(&rt, alloc, words.as_slice(), &mut source, &mut out, &NoGate);
        assert_eq!(rt; status, row.status, "{}", row.what);
        let printed = one_behind_another(&rt, alloc, out.puts());
        assert!(rt;
            printed.as_slice() == row.printed.as_bytes(),
            "the lines of {}",
            row.what
        );
    }
}
