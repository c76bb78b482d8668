// What the programs do with their arguments and their standard input.
#![tactic(auto)]

ghost use Rattle.std.specs.Prelude.{◌≤◌, length, take};
ghost use Rattle.std.specs.Io.KnownBytes.{Consumes};

use std::env::FillError;
use std::io::Read;
use std::rt::Env;

// Whether a program was given arguments, of whatever bytes.
pub fn has_arguments(rt: &impl Env) -> bool {
    let mut none = [0u8; 0];
    !matches!(rt.arg(1, &mut none), Err(FillError::NotPresent))
}

// Reads until the buffer is full, the input ends or a read fails: how many bytes it put at the buffer's front.
pub fn read_full<R: Read>(input: &mut R, buffer: &mut [u8]) -> usize
    ensures bound { result ≤ length buffer.new }
    ensures bytes { Consumes (R.remaining input.old) (R.remaining input.new) (take result buffer.new) }
{
    let mut done = 0;
    while done < buffer.len() {
        match input.read(&mut buffer[done..]) {
            Ok(0) | Err(_) => break,
            Ok(n) => done += n,
        }
    }
    done
}

#[cfg(test)]
mod tests {
    use super::*;
    use std::io;

    // Arguments without the program's name.
    struct Given<'a>(&'a [&'a [u8]]);

    impl<'a> Env for Given<'a> {
        fn arg(&self, i: usize, buf: &mut [u8]) -> Result<usize, FillError> {
            if i == 0 {
                return Ok(0);
            }
            match self.0.get(i - 1) {
                None => Err(FillError::NotPresent),
                Some(word) if word.len() > buf.len() => Err(FillError::TooLong),
                Some(_) => Ok(0),
            }
        }

        fn var(&self, _name: &str, _buf: &mut [u8]) -> Result<usize, FillError> {
            Err(FillError::NotPresent)
        }

        fn var_at(&self, _i: usize, _buf: &mut [u8]) -> Result<usize, FillError> {
            Err(FillError::NotPresent)
        }
    }

    // Gives one byte a read, 1, 2, 3 and so on, and fails where none is left.
    #[derive(Drop)]
    struct Broken {
        given: u8,
        most: u8,
    }

    impl Read for Broken {
        fn read(&mut self, buf: &mut [u8]) -> io::Result<usize> {
            if self.given >= self.most {
                return Err(io::Error::from(io::ErrorKind::Other));
            }
            if buf.is_empty() {
                return Ok(0);
            }
            self.given += 1;
            buf[0] = self.given;
            Ok(1)
        }
    }

    #[test]
    fn arguments_of_any_bytes_count(rt: HostRuntime) {
        assert!(rt; !has_arguments(&Given(&[])));
        assert!(rt; has_arguments(&Given(&[b""])));
        assert!(rt; has_arguments(&Given(&[b"--help"])));
        assert!(rt; has_arguments(&Given(&[b"\xff", b"x"])));
    }

    #[test]
    fn a_failed_read_ends_the_input(rt: HostRuntime) {
        let mut buffer = [0u8; 4];
        let mut input = Broken { given: 0, most: 2 };
        assert_eq!(rt; read_full(&mut input, &mut buffer), 2);
        assert_eq!(rt; buffer, [1, 2, 0, 0]);
    }

    #[test]
    fn a_full_buffer_ends_the_reading(rt: HostRuntime) {
        let mut buffer = [0u8; 4];
        let mut input: &[u8] = b"abcdef";
        assert_eq!(rt; read_full(&mut input, &mut buffer), 4);
        assert_eq!(rt; buffer, *b"abcd");
        assert_eq!(rt; input, b"ef".as_slice());
        assert_eq!(rt; read_full(&mut input, &mut buffer), 2);
        assert_eq!(rt; buffer, *b"efcd");
    }
}
