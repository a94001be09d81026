//! What other code of a package changes where packages are linked (Java Card 2.2 VM Specification, chapters 4 and 6):
//! in the world that they make the code of its methods, and nothing else. Of what packages name nothing changes. It
//! stands on `law_package`, which says what a package with other code is, on `jc_link`, which says what world packages
//! make, and on `law_laid`, which says what worlds are that differ in code alone.
#![tactic(auto)]

mod world_again;

pub use world_again::{
    classes_link, laid_methods_stand, links_again, name_conditions_stay, names_link,
};
