//! Dialplan files as people write them: from the texts of files to a text for the loader, with the source line of each of its lines, and
//! remarks on the lines that are left out.
#![tactic(auto)]

mod comments;
mod configuration;
mod context_line;
mod context_text;
mod dialplan;
mod dialplan_text;
mod directive;
mod entry_line;
mod extension;
mod file_map;
mod folder_files;
mod general_text;
mod header;
mod history;
mod including;
mod known_text;
pub mod laws;
mod line_reading;
mod line_text;
mod made_text;
mod outcome;
mod paths;
mod priority;
mod reading;
mod remark;
mod sections;
mod short_text;
mod source;
mod source_line;
mod wildcard;

pub use configuration::{ConfigurationFiles, read_configuration};
pub use context_text::{plain_lines_stand, read_context};
pub use dialplan::{DialplanFiles, read_dialplan};
pub use dialplan_text::{make_dialplan, text_of};
pub use directive::included_name;
pub use dp_conf::NoMemory;
pub use extension::has_group;
pub use file_map::{FileMap, NamedText};
pub use folder_files::{
    FolderFiles, path_of, read_folder_configuration, read_folder_dialplan, text_path,
};
pub use general_text::read_general;
pub use header::{SectionHeader, header_text, read_header};
pub use known_text::{KnownText, NameList};
pub use line_text::LineText;
pub use made_text::MadeText;
pub use paths::Paths;
pub use reading::{FilesRead, ReadingFault, read_files};
pub use remark::{Fault, LineNote, LineRemark, RemarkKind};
pub use sections::{MOST_COPIED, SectionPlaces, Sections, SourceSection, read_sections};
pub use source::{FileText, Source};
pub use source_line::{MadeLine, SourceFile, SourceLine};
pub use wildcard::{is_wildcard, matches_wildcard, stands_for};
