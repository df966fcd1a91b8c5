use crate::runs::{Done, command, files};
use hy_bits::Memory;
use hy_io::MemSink;
use hycc_top::{Exec, exec_with};
use rand_chacha::ChaCha20Rng;
use rand_core::SeedableRng;
use std::alloc::{AllocError, Global};
use std::test::Fail;

const SUM: &str =
    "unsigned mpc_main(unsigned INPUT_A_x, unsigned INPUT_B_y) { return INPUT_A_x + INPUT_B_y; }";

const RUN: &str =
    "hycc|exec|s|a|b|--seed|0000000000000000000000000000000000000000000000000000000000000000";

/// Runs the source on the inputs.
fn exec(alloc: Global, source: &str, a: &str, b: &str) -> Result<Done, Memory> {
    command(alloc, RUN, files(alloc, source, a, b, &[])?)
}

#[test]
fn sources_are_summed_modulo_2_to_the_32(rt: HostRuntime) -> Result<(), Fail> {
    let alloc = rt.alloc();
    for (source, x, y, line) in [
        (
            SUM,
            "{\"INPUT_A_x\":4294967295}",
            "{\"INPUT_B_y\":1}",
            "{\"bound\":0,\"out\":0}\n",
        ),
        (
            SUM,
            "{\"INPUT_A_x\":4294967295}\n",
            "{\"INPUT_B_y\":0}\n",
            "{\"bound\":0,\"out\":4294967295}\n",
        ),
        (
            "unsigned mpc_main(unsigned INPUT_A_x, unsigned INPUT_B_y) { return INPUT_A_x + 7 + INPUT_B_y; }",
            "{\"INPUT_A_x\":1}",
            "{\"INPUT_B_y\":2}",
            "{\"bound\":0,\"out\":10}\n",
        ),
        (
            "\tunsigned\nmpc_main ( unsigned INPUT_A,unsigned INPUT_B\x0b){return 2147483647+2147483647+INPUT_B+2+0;}\r\n",
            "{\"INPUT_A\":5}",
            "{\"INPUT_B\":6}",
            "{\"bound\":0,\"out\":6}\n",
        ),
        (
            "#include <stdint.h> // none\n#define MORE + 0x10 /* 16 */ + 010\nunsigned mpc_main(unsigned INPUT_A_x, unsigned INPUT_B_y) { return INPUT_A_x MORE + INPUT_B_y; }",
            "{\"INPUT_A_x\":1}",
            "{\"INPUT_B_y\":2}",
            "{\"bound\":0,\"out\":27}\n",
        ),
    ] {
        let done = exec(alloc, source, x, y)?;
        assert_eq!(rt; done.code, 0, "{source}");
        assert_eq!(rt; done.taken.as_slice(), line.as_bytes(), "{source}");
    }
    Ok(())
}

#[test]
fn what_is_not_of_the_form_is_refused(rt: HostRuntime) -> Result<(), Fail> {
    let alloc = rt.alloc();
    let head = "unsigned mpc_main(unsigned INPUT_A_x, unsigned INPUT_B_y) { return ";
    for term in [
        "INPUT_A_x - INPUT_B_y; }",
        "08; }",
        "2147483648; }",
        "INPUT_A_z; }",
        "; }",
        "1 +; }",
        "1; } }",
        "1 }",
        "1;",
        "1 2; }",
        "1u; }",
        "@; }",
    ] {
        let source = format!(in alloc; "{head}{term}")?;
        let done = exec(alloc, source.as_str(), "", "")?;
        assert_eq!(rt; done.code, 3, "{term}");
        assert_eq!(rt;
            done.taken.as_slice(),
            b"{\"fault\":\"Form\",\"name\":\"s\"}\n".as_slice(),
            "{term}"
        );
    }
    for input in [
        "",
        "{}",
        "{\"INPUT_A_x\":07}",
        "{\"INPUT_A_x\":4294967296}",
        "{\"INPUT_A_x\":}",
        "{\"INPUT_A_y\":1}",
        "{\"INPUT_A_x\": 1}",
        "{\"INPUT_A_x\":1}\n\n",
        "{\"INPUT_A_x\":-1}",
    ] {
        let done = exec(alloc, SUM, input, "")?;
        assert_eq!(rt; done.code, 6, "{input}");
        assert_eq!(rt;
            done.taken.as_slice(),
            b"{\"fault\":\"Form\",\"name\":\"a\"}\n".as_slice(),
            "{input}"
        );
    }
    let done = exec(alloc, SUM, "{\"INPUT_A_x\":1}", "{\"INPUT_B_x\":1}")?;
    assert_eq!(rt; done.code, 6);
    assert_eq!(rt;
        done.taken.as_slice(),
        b"{\"fault\":\"Form\",\"name\":\"b\"}\n".as_slice()
    );
    Ok(())
}

#[test]
fn words_that_are_not_of_the_command_are_refused(rt: HostRuntime) -> Result<(), Fail> {
    let alloc = rt.alloc();
    for words in [
        "",
        "hycc",
        "hycc|exec|s|a|b",
        "hycc|run|s|a|b|--seed|0000000000000000000000000000000000000000000000000000000000000000",
        "hycc|exec|s|a|b|--sed|0000000000000000000000000000000000000000000000000000000000000000",
        "hycc|exec|s|a|b|--seed|00",
        "hycc|exec|s|a|b|--seed|000000000000000000000000000000000000000000000000000000000000000g",
        "hycc|exec|s|a|b|--seed|0000000000000000000000000000000000000000000000000000000000000000|",
    ] {
        let done = command(alloc, words, files(alloc, SUM, "", "", &[])?)?;
        assert_eq!(rt; done.code, 1);
        assert_eq!(rt;
            done.taken.as_slice(),
            b"{\"fault\":\"Words\"}\n".as_slice()
        );
    }
    let done = command(
        alloc,
        "any name|exec|s|a|b|--seed|0123456789abcdefABCDEF00000000000000000000000000000000000000ffFF",
        files(alloc, SUM, "{\"INPUT_A_x\":3}", "{\"INPUT_B_y\":4}", &[])?,
    )?;
    assert_eq!(rt; done.code, 0);
    assert_eq!(rt;
        done.taken.as_slice(),
        b"{\"bound\":0,\"out\":7}\n".as_slice()
    );
    Ok(())
}

#[test]
fn a_file_that_fails_is_named(rt: HostRuntime) -> Result<(), Fail> {
    let alloc = rt.alloc();
    for (call, line) in [
        (0, "{\"fault\":\"FileFault\",\"name\":\"s\"}\n"),
        (1, "{\"fault\":\"FileFault\",\"name\":\"a\"}\n"),
        (2, "{\"fault\":\"FileFault\",\"name\":\"b\"}\n"),
    ] {
        let files = files(
            alloc,
            SUM,
            "{\"INPUT_A_x\":1}",
            "{\"INPUT_B_y\":2}",
            &[call],
        )?;
        let done = command(alloc, RUN, files)?;
        assert_eq!(rt; done.code, 2);
        assert_eq!(rt; done.taken.as_slice(), line.as_bytes());
    }
    let absent = files(alloc, SUM, "", "", &[])?;
    let done = command(
        alloc,
        "hycc|exec|s|a \"quoted\" name|b|--seed|0000000000000000000000000000000000000000000000000000000000000000",
        absent,
    )?;
    assert_eq!(rt; done.code, 2);
    assert_eq!(rt;
        done.taken.as_slice(),
        b"{\"fault\":\"FileFault\",\"name\":\"a \\\"quoted\\\" name\"}\n".as_slice()
    );
    Ok(())
}

#[test]
fn a_sink_that_fails_holds_the_first_bytes_of_the_line(rt: HostRuntime) -> Result<(), Fail> {
    let alloc = rt.alloc();
    let job = Exec {
        source: String::from_str(alloc, "s")?,
        a: String::from_str(alloc, "a")?,
        b: String::from_str(alloc, "b")?,
    };
    let mut files = files(alloc, SUM, "{\"INPUT_A_x\":1}", "{\"INPUT_B_y\":2}", &[])?;
    let mut sink = MemSink::new(alloc, 99, 1, Vec::from_slice(alloc, &[5])?)?;
    let status = exec_with(
        alloc,
        &job,
        &mut files,
        &mut sink,
        ChaCha20Rng::from_seed([0; 32]),
    );
    assert_eq!(rt; status.code, 9);
    assert_eq!(rt; sink.taken(), b"{\"bou".as_slice());
    Ok(())
}

/// A source of so many literals 1.
fn ones(alloc: Global, count: u32) -> Result<String, AllocError> {
    let mut source = String::from_str(
        alloc,
        "unsigned mpc_main(unsigned INPUT_A, unsigned INPUT_B) { return INPUT_A",
    )?;
    for _ in 0..count {
        source.push_str(" + 1")?;
    }
    source.push_str("; }")?;
    Ok(source)
}

#[test]
fn thousands_of_terms_and_the_longest_source_are_read(rt: HostRuntime) -> Result<(), Fail> {
    let alloc = rt.alloc();
    let done = exec(
        alloc,
        ones(alloc, 4999)?.as_str(),
        "{\"INPUT_A\":1}",
        "{\"INPUT_B\":9}",
    )?;
    assert_eq!(rt; done.code, 0);
    assert_eq!(rt;
        done.taken.as_slice(),
        b"{\"bound\":0,\"out\":5000}\n".as_slice()
    );
    let mut source = ones(alloc, 1)?;
    for _ in source.len()..0x10_0000 {
        source.push(' ')?;
    }
    assert_eq!(rt;
        exec(alloc, source.as_str(), "{\"INPUT_A\":1}", "{\"INPUT_B\":9}")?.code,
        0
    );
    source.push(' ')?;
    assert_eq!(rt;
        exec(alloc, source.as_str(), "{\"INPUT_A\":1}", "{\"INPUT_B\":9}")?.code,
        3
    );
    Ok(())
}
