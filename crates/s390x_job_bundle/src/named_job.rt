//! The functions of a bundle's text.

use s390x_base::ExternalName;
use s390x_job::Job;

/// A function of a bundle's text: its name and its job.
#[derive(Drop)]
pub struct NamedJob {
    pub name: ExternalName,
    pub job: Job,
}
