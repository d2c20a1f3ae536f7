use std::fs::File;
use std::io::{self, Read};

/// A file by its name, which is opened when it is first read. Where it can't be opened each read fails.
#[derive(Drop)]
pub struct NamedFile<'a> {
    rt: &'a HostRuntime,
    name: &'a str,
    file: Option<File>,
}

impl<'a> NamedFile<'a> {
    pub fn named(rt: &'a HostRuntime, name: &'a str) -> NamedFile<'a> {
        NamedFile {
            rt,
            name,
            file: None,
        }
    }
}

impl<'a> Read for NamedFile<'a> {
    fn read(&mut self, into: &mut [u8]) -> io::Result<usize> {
        match &mut self.file {
            Some(file) => file.read(into),
            None => {
                let mut file = File::open(self.rt, self.name)?;
                let answer = file.read(into);
                self.file = Some(file);
                answer
            }
        }
    }
}
