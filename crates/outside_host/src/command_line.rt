use flow_outside::failure::Memory;
use flow_outside::words::Words;
use std::alloc::Global;
use std::env;
use std::rt::Env;

/// The words of the command line behind the program's name; none where one isn't text, which no program
/// takes. Each is copied once. Nothing is told of which words they are.
pub fn words_of<R: Env + AllocGlobal>(rt: &R, alloc: Global) -> Result<Words, Memory> {
    let mut words = Words::new(alloc);
    let Ok(arguments) = env::args(rt) else {
        return Ok(words);
    };
    for word in arguments.skip(1) {
        words.push(word.as_str())?;
    }
    Ok(words)
}
