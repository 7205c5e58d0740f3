// Why a run ends before its script does.
use std::io;

#[derive(Drop)]
pub enum Fault {
    // The script cannot be read, or a case of it not be replayed.
    Unreadable,
    // Reading or writing failed.
    Io(io::Error),
}

impl From<io::Error> for Fault {
    fn from(error: io::Error) -> Fault {
        Fault::Io(error)
    }
}
