// The program `vectors`: reads a script of calls from standard input, makes them on an area of zero bytes and writes the answers, nine bytes each.
// At most 262,144 bytes of script are read and 14,563 answers written; calls beyond are not made. A script should begin with clear. A call of an
// unknown kind ends it, which is said on standard error.
// crates/script/specs says what a script is, crates/replay/specs that, after a clear, the answers are the reference model's, crates/answers/specs what their
// bytes are.
#![tactic(auto)]

// Output that can't be written is not told of: whoever compares the answers misses it.
fn main(rt: HostRuntime) {
    let mut script = [0u8; 262144];
    let mut area = [0u8; area::AREA_LEN];
    let mut out = [0u8; 131072];
    let len = match input::read_full(&mut rt.stdin(), &mut script) {
        Ok(len) => len,
        // What was read before an error is a script too.
        Err(failed) => failed.len,
    };
    let progress = replay::replay(&mut area, &script[..len], &mut out);
    let _ = rt.write_all(&out[..progress.written]);
    if progress.ending == replay::Ending::UnknownKind {
        let _ = eprintln!(rt; "vectors: the script ends at a call of an unknown kind");
    }
}
