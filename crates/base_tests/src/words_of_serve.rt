// What no clause says: that words are read where there is memory.
use serve_words::{OptionsRead, read_options};
use std::alloc::Global;
use std::test::Fail;

const GOOD: &str = "serve --listen 127.0.0.1:0 --metadata http://up.example/i";

// words, each behind one space, and whether they are a command
const LINES: [(&str, bool); 44] = [
    ("", true),
    (" --workers=1", true),
    (" --workers 64", true),
    (" --workers 65", false),
    (" --workers 0", false),
    (" --workers 04", false),
    (" --workers=", false),
    (" --workers", false),
    (" --workers -1", false),
    (" --workers=2 --workers=2", false),
    (" --connections 1000000", true),
    (" --connections 1000001", false),
    (" --control c.example", true),
    (" --control c.example:80", false),
    (" --control c.example:", false),
    (" --claimed-origin c.example:", false),
    (" --control=[::1]", true),
    (" --protocol https/1.1", true),
    (" --protocol HTTPS/1.1", false),
    (" --places a=b", true),
    (" --places=a=b", true),
    (" --footprints countrycode:us,asn:as64496", true),
    (" --footprints countrycode:us,", false),
    (" --footprints countrycode:usa", false),
    (" --cdn-id AS1:0", true),
    (" --cdn-id 1:0", false),
    (" --claimed-origin D.example", true),
    (
        " --cache 0 --rows 1 --triggers 1 --files 1 --period 0",
        true,
    ),
    (" --log-fields sc-status,cs(User-Agent)", true),
    (" --log-fields=date", true),
    (" --log-fields date,date", false),
    (" --log-fields cs(a),cs(A)", false),
    (" --log-fields cs()", false),
    (" --log-fields date,", false),
    (" --cache 1073741825", false),
    (" --rows 100001", false),
    (" --triggers 10001", false),
    (" --files 65", false),
    (" --period 86400001", false),
    (" --help", false),
    (" --", false),
    (" -w 2", false),
    (" --listen 127.0.0.1:1", false),
    (" extra", false),
];

// whether the words, between single spaces, are a command
fn is_command(alloc: Global, line: &str) -> Result<bool, Fail> {
    let mut words: Vec<String> = Vec::new(alloc);
    for word in line.split(' ') {
        words.push(String::from_str(alloc, word)?)?;
    }
    match read_options(alloc, &words) {
        OptionsRead::Options(_) => Ok(true),
        OptionsRead::NotOne => Ok(false),
        OptionsRead::Memory => Err(Fail::from("memory")),
    }
}

#[test]
fn words_are_commands_or_not(rt: HostRuntime) -> Result<(), Fail> {
    let alloc = rt.alloc();
    for (more, is_one) in LINES {
        let mut line = String::from_str(alloc, GOOD)?;
        line.push_str(more)?;
        assert_eq!(rt; is_command(alloc, line.as_str())?, is_one, "{more}");
    }
    for line in [
        "",
        "serve",
        "server --listen 127.0.0.1:0 --metadata http://up.example/i",
        "serve --listen 127.0.0.1:0",
        "serve --metadata http://up.example/i",
        "serve --listen 127.0.0.1:0 --metadata https://up.example/i",
        "serve --listen 127.0.0.1:0 --metadata /i",
    ] {
        assert!(rt; !is_command(alloc, line)?, "{line}");
    }
    Ok(())
}
