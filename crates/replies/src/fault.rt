// Why a stream of questions ends early.
use std::io;

// The stream stops short, says what no stream may say, or can't be read, or the answers can't be written.
#[derive(Drop)]
pub enum Fault {
    Cut,
    Malformed,
    Io(io::Error),
}

impl From<io::Error> for Fault {
    fn from(e: io::Error) -> Fault {
        Fault::Io(e)
    }
}
