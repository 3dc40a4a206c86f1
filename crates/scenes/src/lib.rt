//! Scenes, the engine's face for games, simulators and editors that embed it: a world that is edited, and the frames of
//! it that viewers enter.
//!
//! An embedder lists this crate alone, and takes from it all that it names: what a world is made of (`Settings`,
//! `Event`, `Brush`, `Mode`, `Point`), what makes a scene (`Cases`, `Bulk`, `PlainDoor`, `Scene`), who looks at it
//! (`Viewer`, `Entered`, `NoPlace`), who edits it from threads of their own (`SceneEditor`, `SceneClerk`), the news of
//! what changed (`Told`), what a frame lends (`Frame`, `Levels`, `BlockView`, `Version`), and what its surface is asked
//! (`Surface`, `Normal`, `Hit`). These names are the public interface of the engine. The crates that they come from may
//! be cut anew.
#![tactic(auto)]

mod editing;
mod holders;
mod publishing;
mod refused;
mod scene;
mod surface;
mod unsent;

pub use audits::Audit;
pub use block_mesh::BlockView;
pub use cells::Cases;
pub use editing::open_mail;
pub use editors::{MAX_EDITORS, Note};
pub use field_pages::Version;
pub use frame_surface::{Hit, Normal};
pub use holders::{SceneClerk, SceneEditor};
pub use lattice::{Axis, Key, MAX_DEPTH, MAX_REACH, Node, Point, Pos, Settings};
pub use mesh_jobs::{Bulk, Mesher};
pub use octree::Levels;
pub use published_frames::{BeginFault, Door, Entered, NoPlace, PlainDoor, Told, Viewer};
pub use publishing::catch_up;
pub use refused::Refused;
pub use scene::Scene;
pub use snapshots::{Frame, Stats};
pub use surface::Surface;
pub use terra_events::{MAX_EVENTS, MAX_VIEWS, World};
pub use terrain::{Brush, Event, Mode};
pub use unsent::Unsent;
