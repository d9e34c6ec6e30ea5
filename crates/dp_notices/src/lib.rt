//! Notices on the lines of a dialplan's files and of a file of queues: the notes and faults of the file reader and of the loader, each at
//! the line of the file that it is about.
#![tactic(auto)]

mod check;
mod group_names;
mod line_notices;
mod loading;
mod macro_ends;
mod notice;
mod plan_files;
mod preparation;
mod printing;
mod queue_files;
mod queue_lines;
mod timed_includes;

pub use check::{CheckReport, check_plan, check_plan_and_queues, check_queues};
pub use dp_conf::NoMemory;
pub use dp_wide::{Moment, read_moment};
pub use line_notices::{LineNotices, NotedLine, NoticeAt};
pub use loading::PlanCounts;
pub use notice::{Notice, NoticeFault, QueueNote};
pub use plan_files::{PlanFiles, read_folder_plan, read_plan};
pub use preparation::show_plain_lines_stand;
pub use printing::{Assumptions, Shown, print_notices, print_queue_notices};
pub use queue_files::{QueueFiles, read_folder_queues, read_queues};
