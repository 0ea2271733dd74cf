// The files of the folder that a program runs in.
#![tactic(auto)]

ghost use Rattle.std.specs.Prelude.{IfErr, ◌≢◌};
ghost use Rattle.std.specs.IoError.{error_kind};

use fields::spot::Files;
use std::io::ErrorKind;
use std::{fs, io};

// A file's bytes. A file that is not there counts as empty.
pub fn bytes_of(rt: &HostRuntime, path: &str) -> io::Result<Vec<u8>>
    ensures { IfErr result (λ e. error_kind e ≢ ErrorKind.NotFound) }
{
    match fs::read(rt, path) {
        Err(e) if e.kind() == ErrorKind::NotFound => Ok(Vec::new(rt.alloc())),
        read => read,
    }
}

// The venue file, `venue.bin`, and the show file, `show.bin`.
pub fn files(rt: &HostRuntime) -> io::Result<Files>
    ensures { IfErr result (λ e. error_kind e ≢ ErrorKind.NotFound) }
{
    let venue = bytes_of(rt, "venue.bin")?;
    let show = bytes_of(rt, "show.bin")?;
    Ok(Files { venue, show })
}

#[cfg(test)]
mod tests {
    use super::*;
    use std::test::Fail;

    #[test]
    fn a_missing_file_is_empty(rt: HostRuntime) -> Result<(), Fail> {
        assert_eq!(rt; bytes_of(&rt, "no such file")?.len(), 0);
        Ok(())
    }
}
