use super::*;
use std::alloc::Global;
use std::test::Fail;

fn asked(alloc: Global, line: &str) -> Result<Result<Request, WordsError>, Fail> {
    let mut words = Vec::new(alloc);
    for word in line.split(' ') {
        words.push(String::from_str(alloc, word)?)?;
    }
    Ok(read_request(alloc, words.as_slice()))
}

#[test]
fn words_ask(rt: HostRuntime) -> Result<(), Fail> {
    let alloc = rt.alloc();
    for (line, answer) in [
        (
            "rna --dna a",
            r#"Rna(RunWords { dna: Name { text: "a" }, prefix: None, budget: 10000000, limit: 67108864 })"#,
        ),
        (
            "rna --budget=0002 --limit 1 --prefix p --dna= --",
            r#"Rna(RunWords { dna: Name { text: "" }, prefix: Some(Name { text: "p" }), budget: 2, limit: 1 })"#,
        ),
        (
            "dna --limit 1099511627776 --dna=-v --budget 1099511627776",
            r#"Dna(RunWords { dna: Name { text: "-v" }, prefix: None, budget: 1099511627776, limit: 1099511627776 })"#,
        ),
        (
            "image --dna a --budget 0",
            r#"Image { run: RunWords { dna: Name { text: "a" }, prefix: None, budget: 0, limit: 67108864 }, profile: Plain }"#,
        ),
        (
            "draw --rna r --profile plain",
            r#"Draw { rna: Name { text: "r" }, profile: Plain }"#,
        ),
        (
            "draw --profile=wide --rna r",
            r#"Draw { rna: Name { text: "r" }, profile: Wide }"#,
        ),
        (
            "names --rna r --profile wide",
            r#"Names { rna: Name { text: "r" }, profile: Wide }"#,
        ),
        (
            "list --count=007 --dna a",
            r#"List { dna: Name { text: "a" }, count: 7 }"#,
        ),
        (
            "patch --file p",
            r#"Patch { file: Name { text: "p" }, limit: 67108864 }"#,
        ),
        (
            "patch --limit=01 --file=p",
            r#"Patch { file: Name { text: "p" }, limit: 1 }"#,
        ),
        (
            "bench --seed 2147483647 --rounds=65536 --size 16777216",
            r#"Bench { seed: 2147483647, size: 16777216, rounds: 65536 }"#,
        ),
        (
            "assemble --text t",
            r#"Assemble { text: Name { text: "t" } }"#,
        ),
        (
            "compile --limit=5 --source s",
            r#"Compile { source: Name { text: "s" }, limit: 5 }"#,
        ),
        (
            "picture --ppm p",
            r#"Picture { ppm: Name { text: "p" }, limit: 67108864 }"#,
        ),
        (
            "explain --attempts 1 --length 0 --prefix p --limit=2",
            r#"Explain(ExplainWords { prefix: Name { text: "p" }, length: 0, attempts: 1, limit: 2 })"#,
        ),
        (
            "rewind --script s --dna a",
            r#"Rewind(RewindWords { dna: Name { text: "a" }, prefix: None, script: Name { text: "s" }, limit: 67108864 })"#,
        ),
        (
            "trace --dna a --budget=1",
            r#"Trace(RunWords { dna: Name { text: "a" }, prefix: None, budget: 1, limit: 67108864 })"#,
        ),
    ] {
        let request = asked(alloc, line)?.map_err(|_| "no request")?;
        assert_eq!(rt; format!(in alloc; "{request:?}")?.as_str(), answer);
    }
    Ok(())
}

#[test]
fn other_words_are_refused(rt: HostRuntime) -> Result<(), Fail> {
    let alloc = rt.alloc();
    for line in [
        "",
        "run --dna a",
        "RNA --dna a",
        "rna",
        "rna a",
        "rna --dna",
        "rna --dna a b",
        "rna --dna a -- b",
        "rna --dna a --dna a",
        "rna --dn a",
        "rna --dna a --help",
        "rna -h",
        "rna --version",
        "rna --dna a --budget +2",
        "rna --dna a --budget 2x",
        "rna --dna a --budget=",
        "rna --dna a --budget -1",
        "rna --dna a --budget 1099511627777",
        "rna --dna a --budget 99999999999999999999",
        "rna --dna a --limit 0",
        "rna --dna a --limit 1099511627777",
        "rna --dna a --profile wide",
        "image --dna a --profile big",
        "image --dna a --profile Wide",
        "draw --dna a",
        "draw --rna a --profile",
        "names --rna a --profile big",
        "list --dna a",
        "list --dna a --count 1099511627777",
        "trace --dna a --profile plain",
        "patch",
        "patch --dna a",
        "patch --file p --limit 0",
        "patch --file p --limit 1099511627777",
        "patch --file p --budget 1",
        "bench --seed 0 --size 0",
        "bench --seed 2147483648 --size 0 --rounds 0",
        "bench --seed 0 --size 16777217 --rounds 0",
        "bench --seed 0 --size 0 --rounds 65537",
        "assemble",
        "assemble --text t --limit 1",
        "compile --limit 1",
        "compile --source s --limit 0",
        "picture --limit 1",
        "picture --ppm p --limit 0",
        "explain --prefix p --length 1",
        "explain --prefix p --length 1099511627777 --attempts 1",
        "rewind --dna a",
        "rewind --dna a --script s --budget 1",
    ] {
        assert!(rt;
            matches!(asked(alloc, line)?, Err(WordsError::Usage)),
            "at {line}"
        );
    }
    let none: Vec<String> = Vec::new(alloc);
    assert!(rt; matches!(read_request(alloc, none.as_slice()), Err(WordsError::Usage)));
    Ok(())
}
