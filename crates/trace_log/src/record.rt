// What one record of a log says. A path is the part of the log that it stands in.
#[derive(Drop)]
pub enum Record<'a> {
    // B: a process is born, of a parent (0 for the session) and for a target (0 for none).
    // The zeros stay zeros: a record says the numbers that the format has.
    Birth {
        process: u32,
        parent: u32,
        target: u16,
    },
    // M: a process becomes a make.
    Make {
        process: u32,
    },
    // T: a make declares its next target, with the numbers of its prerequisites.
    Target {
        process: u32,
        prerequisites: Vec<u16>,
    },
    // D: a process dies.
    Death {
        process: u32,
    },
    // R: a process reads a file.
    Read {
        process: u32,
        device: u32,
        inode: u64,
        path: &'a [u8],
    },
    // W: a process writes a file or makes a directory.
    Write {
        process: u32,
        device: u32,
        inode: u64,
        path: &'a [u8],
    },
    // K: a process fails to make a directory, since it exists.
    Exists {
        process: u32,
        path: &'a [u8],
    },
    // U: a process removes a path; last says that the inode is released with it.
    Removal {
        process: u32,
        device: u32,
        inode: u64,
        last: bool,
        path: &'a [u8],
    },
    // F: a process posts a flag.
    Post {
        process: u32,
        flag: u8,
    },
    // A: a process has waited for a flag.
    Await {
        process: u32,
        flag: u8,
    },
}
