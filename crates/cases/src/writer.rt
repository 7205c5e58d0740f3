// Standard output, through a buffer that is written out when it is full.
use std::io::{self, Write};

#[derive(Drop)]
pub struct Writer<'a, P> {
    rt: &'a P,
    buffer: &'a mut [u8],
    // How much of the buffer is still to be written out. A slice of it could not stand beside what is filled again.
    used: usize,
}

impl<'a, P> Writer<'a, P> {
    pub fn new(rt: &'a P, buffer: &'a mut [u8]) -> Writer<'a, P> {
        Writer {
            rt,
            buffer,
            used: 0,
        }
    }
}

impl<P: Print> Write for Writer<'_, P> {
    fn write(&mut self, bytes: &[u8]) -> io::Result<usize> {
        self.write_all(bytes)?;
        Ok(bytes.len())
    }

    fn write_all(&mut self, bytes: &[u8]) -> io::Result<()> {
        if self.buffer.len().saturating_sub(self.used) < bytes.len() {
            self.flush()?;
        }
        let used = self.used;
        let end = used.saturating_add(bytes.len());
        match self.buffer.get_mut(used..end) {
            Some(room) => {
                room.copy_from_slice(bytes);
                self.used = end;
                Ok(())
            }
            // Longer than the whole buffer.
            None => self.rt.write_all(bytes),
        }
    }

    fn flush(&mut self) -> io::Result<()> {
        let used = self.used.min(self.buffer.len());
        let buffer = &mut *self.buffer;
        self.rt.write_all(&buffer[..used])?;
        self.used = 0;
        Ok(())
    }
}
