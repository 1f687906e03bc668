//! The commands of the program.
ghost use Rattle.std.specs.Prelude.{◌≡◌, option_map};
ghost use Rattle.room_words.specs.Words.{folder_of, address_of, file_of, serves};
ghost use Rattle.room_words.specs.Telling.{told};

/// The rooms that a server has.
#[derive(Clone, Copy, Debug, PartialEq, Eq)]
pub enum Hosted<'a> {
    /// All of a table.
    All,
    /// The one of this name.
    One(&'a str),
}

/// What is done with the table of rooms.
#[derive(Clone, Copy, Debug, PartialEq, Eq)]
pub enum Deed<'a> {
    /// Its rows are written.
    List,
    /// A room of this name is added.
    Create(&'a str),
    /// The room of this name is retired.
    Retire(&'a str),
    /// The room of this name gets metadata.
    Meta(&'a str),
}

/// A command of the program, with the words that are its values.
#[derive(Clone, Copy, Debug, PartialEq, Eq)]
pub enum Command<'a> {
    /// `replay [FOLDER]`
    Replay {
        folder: Option<&'a str>,
    },
    /// `serve FOLDER ROOM ADDRESS TURNS [guarded]`, with `@all` in place of ROOM for all rooms of a table
    Serve {
        folder: &'a str,
        rooms: Hosted<'a>,
        address: &'a str,
        /// At most so many calls of the hub, 1 to 10^18.
        turns: u64,
        guarded: bool,
    },
    /// `client ADDRESS ROOM`
    Client {
        address: &'a str,
        room: &'a str,
    },
    /// `show FOLDER`
    Show {
        folder: &'a str,
    },
    /// `gen NUMBER COUNT`, a count of at most 10,000
    Gen {
        number: u64,
        count: u64,
    },
    /// `patch FOLDER`
    Patch {
        folder: &'a str,
    },
    /// `rooms FILE list`, or `rooms FILE create NAME`, `retire NAME`, `meta NAME`
    Rooms {
        file: &'a str,
        deed: Deed<'a>,
    },
}

impl<'a> Command<'a> {
    /// The folder of its files, if it names one.
    pub fn folder(self) -> Option<&'a str>
        ensures { option_map (λ s. s.now) result ≡ folder_of (told self.entry) }
    {
        match self {
            Command::Replay { folder } => folder,
            Command::Serve { folder, .. } => Some(folder),
            Command::Show { folder } => Some(folder),
            Command::Patch { folder } => Some(folder),
            _ => None,
        }
    }

    /// The address that it serves or dials, if it names one.
    pub fn address(self) -> Option<&'a str>
        ensures { option_map (λ s. s.now) result ≡ address_of (told self.entry) }
    {
        match self {
            Command::Serve { address, .. } => Some(address),
            Command::Client { address, .. } => Some(address),
            _ => None,
        }
    }

    /// The file of the table of rooms, if it names one.
    pub fn file(self) -> Option<&'a str>
        ensures { option_map (λ s. s.now) result ≡ file_of (told self.entry) }
    {
        match self {
            Command::Rooms { file, .. } => Some(file),
            _ => None,
        }
    }

    /// Whether it serves.
    pub fn serves(self) -> bool
        ensures { result ≡ serves (told self.entry) }
    {
        matches!(self, Command::Serve { .. })
    }
}
